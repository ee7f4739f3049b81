//! Candidates that a post adds.

ghost use Rattle.std.specs.Prelude.{◌≡◌, true, OnOk};
ghost use Rattle.call_context.specs.declared.node.Frame.{Frame};
ghost use Rattle.round_core.specs.Agenda.{IsIn, places_in, KeepsCandidates, KeepsPlaces};
ghost use Rattle.round_core.specs.Expected.{Grows, ExpectsNode, ExpectsUnit};
ghost use Rattle.round_core.specs.declared.raised.Risen.{Risen};
ghost use Rattle.round_core.specs.Returns.{HasReturnsTo, HasReturnsFrom};
ghost use Rattle.book_rules.specs.Machine.{HasRisen, waits_for};

use crate::agenda::Agenda;
use crate::candidates::{add_candidate, add_returns_from, add_returns_to};
use crate::nodes::Nodes;
use crate::place::Place;
use crate::places::Places;
use crate::raised::Risen;
use crate::works::Works;
use book_rules::Versions;
use call_context::{Frame, Node, Unit};
use no_memory::Memory;
use std::collections::BTreeSet;

/// Adds the returns to a node from the exits of frames.
fn add_returns(
    candidates: &mut BTreeSet<Place>,
    exits: &Places,
    node: usize,
    frames: &[Frame],
) -> Result<(), Memory>
    ensures added { OnOk result ((frame : Frame) → IsIn frame frames.now → HasReturnsTo candidates.new.keys node (places_in exits.now frame)) }
    ensures kept { KeepsCandidates candidates.old.keys candidates.new.keys }
{
    for frame in frames {
        add_returns_to(candidates, node, exits.of(frame))?;
    }
    Ok(())
}

/// Adds the own work of a location, and the returns to it that its last work waits for.
fn expect_location<A>(
    candidates: &mut BTreeSet<Place>,
    exits: &Places,
    works: &Works<A>,
    node: &Node,
    place: usize,
) -> Result<(), Memory>
    ensures own { OnOk result (IsIn (Place.One place) candidates.new.keys) }
    ensures returns { OnOk result ((frame : Frame) → waits_for works.now.rows node.now frame ≡ true → HasReturnsTo candidates.new.keys place (places_in exits.now frame)) }
    ensures kept { KeepsCandidates candidates.old.keys candidates.new.keys }
{
    add_candidate(candidates, Place::One(place))?;
    match works.find(&Unit::One(*node), Place::One(place)) {
        Some((_, work, _)) => add_returns(candidates, exits, place, work.waits.as_slice()),
        None => Ok(()),
    }
}

/// Notes an exit of a frame, and adds the returns from it.
fn expect_exit(agenda: &mut Agenda, frame: &Frame, place: usize) -> Result<(), Memory>
    ensures noted { OnOk result (IsIn place (places_in agenda.new.exits frame.now)) }
    ensures returns { OnOk result (HasReturnsFrom agenda.new.candidates.keys (places_in agenda.old.waiting frame.now) place) }
    ensures grows { Grows agenda.old agenda.new }
    ensures waiting { agenda.new.waiting ≡ agenda.old.waiting }
{
    agenda.exits.add(frame, place)?;
    add_returns_from(&mut agenda.candidates, agenda.waiting.of(frame), place)
}

/// Adds what may be claimable once a node has risen.
pub fn expect_node<A>(
    agenda: &mut Agenda,
    works: &Works<A>,
    node: &Node,
    place: usize,
) -> Result<(), Memory>
    ensures expected { OnOk result (ExpectsNode works.now.rows agenda.old agenda.new node.now place) }
    ensures grows { Grows agenda.old agenda.new }
    ensures waiting { agenda.new.waiting ≡ agenda.old.waiting }
{
    match node {
        Node::At(..) => {
            expect_location(&mut agenda.candidates, &agenda.exits, works, node, place)
        }
        Node::Exit(_, frame) => expect_exit(agenda, frame, place),
    }
}

/// Adds what may be claimable once these nodes have risen.
pub fn expect_raised<A>(
    agenda: &mut Agenda,
    works: &Works<A>,
    raised: &[Risen<A>],
) -> Result<(), Memory>
    ensures expected { OnOk result ((r : Risen A) → IsIn r raised.now → ExpectsNode works.now.rows agenda.old agenda.new r.node r.place) }
    ensures grows { Grows agenda.old agenda.new }
{
    for risen in raised {
        expect_node(agenda, works, &risen.node, risen.place)?;
    }
    Ok(())
}

/// Adds a location itself and the returns that it waits for.
fn expect_waits(agenda: &mut Agenda, place: usize, frames: &[Frame]) -> Result<(), Memory>
    ensures waiting { OnOk result ((frame : Frame) → IsIn frame frames.now → IsIn place (places_in agenda.new.waiting frame)) }
    ensures returns { OnOk result ((frame : Frame) → IsIn frame frames.now → HasReturnsTo agenda.new.candidates.keys place (places_in agenda.old.exits frame)) }
    ensures grows { Grows agenda.old agenda.new }
{
    for frame in frames {
        agenda.waiting.add(frame, place)?;
    }
    add_returns(&mut agenda.candidates, &agenda.exits, place, frames)
}

/// Adds a unit that comes home to its place, if an input rose since it was claimed.
fn expect_again(
    candidates: &mut BTreeSet<Place>,
    place: Place,
    claimed: Versions,
    now: Versions,
) -> Result<(), Memory>
    ensures added { OnOk result (HasRisen claimed now → IsIn place candidates.new.keys) }
    ensures kept { KeepsCandidates candidates.old.keys candidates.new.keys }
{
    if claimed.at < now.at || claimed.exit < now.exit {
        add_candidate(candidates, place)
    } else {
        Ok(())
    }
}

/// Adds a unit that comes home, whose place may be this one, and the returns that its work waits for.
pub fn expect_unit<A>(
    agenda: &mut Agenda,
    nodes: &Nodes<A>,
    unit: &Unit,
    place: Place,
    claimed: Versions,
    frames: &[Frame],
) -> Result<(), Memory>
    ensures expected { OnOk result (ExpectsUnit agenda.old agenda.new nodes.now.rows unit.now claimed frames.now) }
    ensures grows { Grows agenda.old agenda.new }
{
    let (at_node, at_exit) = place.of_nodes();
    match unit {
        Unit::One(node) => {
            let Some((place, _, at)) = nodes.find_near(node, at_node) else {
                return Ok(());
            };
            let now = Versions { at, exit: 0 };
            expect_again(&mut agenda.candidates, Place::One(place), claimed, now)?;
            expect_waits(agenda, place, frames)
        }
        Unit::Back(node, exit) => {
            let found = (
                nodes.find_near(node, at_node),
                nodes.find_near(exit, at_exit),
            );
            let (Some((node, _, at)), Some((from, _, exit))) = found else {
                return Ok(());
            };
            let now = Versions { at, exit };
            expect_again(
                &mut agenda.candidates,
                Place::Back(node, from),
                claimed,
                now,
            )
        }
    }
}
