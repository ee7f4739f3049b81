//! Places of nodes, by frames.

ghost use Rattle.std.specs.Prelude.{◌≡◌, ℕ, [], OnOk, IsSome, None};
ghost use Rattle.std.specs.Map.{lookup};
ghost use Rattle.round_core.specs.Agenda.{IsIn, places_in, seen, KeepsPlaces};

use call_context::{Frame, equal_nodes_are_one};
use indexmap::IndexMap;
use no_memory::Memory;
use std::alloc::Global;
use std::marker::Model;

/// Places of nodes, kept for a frame: each once, and in ascending order.
#[derive(Drop)]
pub struct Places {
    by_frame: IndexMap<Frame, Vec<usize>>,
}

impl Model for Places {
    ghost use Rattle.std.specs.Prelude.{ℕ, List};
    ghost use Rattle.call_context.specs.declared.node.Frame.{Frame};

    ghost Value = { List (Frame × List ℕ) };

    ghost use Rattle.round_core.specs.Agenda.{seen};

    ghost view = { λ p. seen p.by_frame.entries };
}

/// Keeps a place among ascending ones, once.
fn keep(places: &mut Vec<usize>, place: usize) -> Result<(), Memory>
    ensures added { OnOk result (IsIn place places.new.items) }
    ensures kept { (other : ℕ) → IsIn other places.old.items → IsIn other places.new.items }
{
    if let Err(at) = places.binary_search(&place) {
        places.insert(at, place)?;
    }
    Ok(())
}

/// Keeps a place for a frame that has some.
fn add_to_present(
    by_frame: &mut IndexMap<Frame, Vec<usize>>,
    frame: &Frame,
    place: usize,
) -> Result<(), Memory>
    ensures added { OnOk result (IsSome (lookup (⟦<Frame as PartialEq>⟧.eq frame.now) by_frame.old.entries) → IsIn place (places_in (seen by_frame.new.entries) frame.now)) }
    ensures kept { KeepsPlaces (seen by_frame.old.entries) (seen by_frame.new.entries) }
{
    equal_nodes_are_one();
    match by_frame.get_mut(frame) {
        Some(places) => keep(places, place),
        None => Ok(()),
    }
}

/// Keeps a place for a frame that has none.
fn add_new(
    by_frame: &mut IndexMap<Frame, Vec<usize>>,
    frame: &Frame,
    place: usize,
) -> Result<(), Memory>
    requires { lookup (⟦<Frame as PartialEq>⟧.eq frame.now) by_frame.old.entries ≡ None }
    ensures added { OnOk result (IsIn place (places_in (seen by_frame.new.entries) frame.now)) }
    ensures kept { KeepsPlaces (seen by_frame.old.entries) (seen by_frame.new.entries) }
{
    equal_nodes_are_one();
    let mut places = Vec::new(*by_frame.allocator());
    places.push(place)?;
    by_frame.insert(*frame, places)?;
    Ok(())
}

impl Places {
    /// None.
    pub fn new(alloc: Global) -> Self
        ensures { result ≡ [] }
    {
        Places {
            by_frame: IndexMap::new(alloc),
        }
    }

    /// The places that are kept for a frame.
    pub fn of(&self, frame: &Frame) -> &[usize]
        ensures { result.now ≡ places_in self.now frame.now }
    {
        equal_nodes_are_one();
        match self.by_frame.get(frame) {
            Some(places) => places.as_slice(),
            None => &[],
        }
    }

    /// Keeps a place for a frame.
    pub fn add(&mut self, frame: &Frame, place: usize) -> Result<(), Memory>
        ensures added { OnOk result (IsIn place (places_in self.new frame.now)) }
        ensures kept { KeepsPlaces self.old self.new }
    {
        if self.by_frame.contains_key(frame) {
            add_to_present(&mut self.by_frame, frame, place)
        } else {
            add_new(&mut self.by_frame, frame, place)
        }
    }
}
