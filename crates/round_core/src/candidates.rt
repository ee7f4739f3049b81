//! Sets of places.

ghost use Rattle.std.specs.Prelude.{OnOk};
ghost use Rattle.round_core.specs.declared.place.Place.{Place};
ghost use Rattle.round_core.specs.Agenda.{IsIn, KeepsCandidates};
ghost use Rattle.round_core.specs.Returns.{HasReturnsTo, HasReturnsFrom};

use crate::place::Place;
use no_memory::Memory;
use std::collections::BTreeSet;

/// Adds a candidate.
pub fn add_candidate(candidates: &mut BTreeSet<Place>, place: Place) -> Result<(), Memory>
    ensures added { OnOk result (IsIn place candidates.new.keys) }
    ensures kept { KeepsCandidates candidates.old.keys candidates.new.keys }
{
    candidates.insert(place)?;
    Ok(())
}

/// Adds the returns to a node from exits.
pub fn add_returns_to(
    candidates: &mut BTreeSet<Place>,
    node: usize,
    exits: &[usize],
) -> Result<(), Memory>
    ensures added { OnOk result (HasReturnsTo candidates.new.keys node exits.now) }
    ensures kept { KeepsCandidates candidates.old.keys candidates.new.keys }
{
    for exit in exits {
        add_candidate(candidates, Place::Back(node, *exit))?;
    }
    Ok(())
}

/// Adds the returns to nodes from an exit.
pub fn add_returns_from(
    candidates: &mut BTreeSet<Place>,
    nodes: &[usize],
    exit: usize,
) -> Result<(), Memory>
    ensures added { OnOk result (HasReturnsFrom candidates.new.keys nodes.now exit) }
    ensures kept { KeepsCandidates candidates.old.keys candidates.new.keys }
{
    for node in nodes {
        add_candidate(candidates, Place::Back(*node, exit))?;
    }
    Ok(())
}

/// Adds candidates.
pub fn add_all(candidates: &mut BTreeSet<Place>, places: &[Place]) -> Result<(), Memory>
    ensures added { OnOk result ((place : Place) → IsIn place places.now → IsIn place candidates.new.keys) }
    ensures kept { KeepsCandidates candidates.old.keys candidates.new.keys }
{
    for place in places {
        add_candidate(candidates, *place)?;
    }
    Ok(())
}
