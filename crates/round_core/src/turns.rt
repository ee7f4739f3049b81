//! Units that are out, and the journal.

ghost use Rattle.std.specs.Prelude.{◌≡◌, ◌↔◌, ◌<◌, ◌++◌, ◌∷◌, [], IsTrue, IfSome, IsSome, OnOk, OnErr, Some, None, is_some, length};
ghost use Rattle.round_core.specs.Turns.{index_out, place_out, StandOnce, TakesHome};
ghost use Rattle.round_core.specs.declared.place.Place.{Place};

use crate::key::same_unit;
use crate::place::Place;
use book_rules::Event;
use call_context::Unit;
use no_memory::Memory;
use std::alloc::Global;
use std::marker::Model;

/// The units that are out with their places, the places that were given back since the last claim, and all that
/// happened. There is room for what the end of each unit that is out adds.
#[derive(Drop)]
pub struct Turns {
    out: Vec<(Unit, Place)>,
    returned: Vec<Place>,
    journal: Vec<Event>,
}

impl Model for Turns {
    ghost use Rattle.std.specs.Prelude.{◌+◌, ◌≤◌, vec_len, vec_capacity, length};
    ghost use Rattle.round_core.specs.Turns.{Standing, StandOnce};

    ghost Value = { Standing };

    ghost view = { λ t. record { journal = t.journal.items; out = t.out.items; returned = t.returned.items } };

    ghost invariant = { λ t.
        (vec_len t.returned + length t.out.items ≤ vec_capacity t.returned)
        × (vec_len t.journal + length t.out.items ≤ vec_capacity t.journal)
        × StandOnce t.out.items };
}

/// Where a unit stands among those that are out. Each worker has few out, so they are looked through.
fn index_of(out: &[(Unit, Place)], unit: &Unit) -> Option<usize>
    ensures index { result ≡ index_out out.now unit.now }
    ensures bound { IfSome result (λ index. index < length out.now) }
{
    for index in 0..out.len() {
        if same_unit(unit, &out[index].0) {
            return Some(index);
        }
    }
    None
}

/// Takes a unit home.
fn take_home(out: &mut Vec<(Unit, Place)>, unit: &Unit) -> Place
    requires out { IsSome (place_out out.old.items unit.now) }
    requires once { StandOnce out.old.items }
    ensures place { place_out out.old.items unit.now ≡ Some result }
    ensures others { TakesHome out.old.items unit.now out.new.items }
    ensures once { StandOnce out.new.items }
{
    match index_of(out.as_slice(), unit) {
        Some(index) => out.remove(index).1,
        None => unreachable!(),
    }
}

impl Turns {
    /// None is out, and nothing happened.
    pub fn new(alloc: Global) -> Self
        ensures { result ≡ record { journal = []; out = []; returned = [] } }
    {
        Turns {
            out: Vec::new(alloc),
            returned: Vec::new(alloc),
            journal: Vec::new(alloc),
        }
    }

    /// All that happened, in order.
    pub fn journal(&self) -> &[Event]
        ensures { result.now ≡ self.now.journal }
    {
        self.journal.as_slice()
    }

    /// The same as a vector.
    pub fn into_journal(self) -> Vec<Event>
        ensures { result.items ≡ self.journal }
    {
        self.journal
    }

    /// Forgets what happened.
    pub fn clear_journal(&mut self)
        ensures { self.new ≡ record self.old { journal = [] } }
    {
        self.journal.clear();
    }

    /// The places that were given back since the last claim.
    pub fn returned(&self) -> &[Place]
        ensures { result.now ≡ self.now.returned }
    {
        self.returned.as_slice()
    }

    /// Forgets the places that were given back.
    pub fn clear_returned(&mut self)
        ensures { self.new ≡ record self.old { returned = [] } }
    {
        self.returned.clear();
    }

    /// Whether none is out.
    pub fn is_empty(&self) -> bool
        ensures { IsTrue result ↔ (length self.now.out ≡ 0) }
    {
        self.out.is_empty()
    }

    /// Whether a unit is out.
    pub fn is_out(&self, unit: &Unit) -> bool
        ensures { result ≡ is_some (place_out self.now.out unit.now) }
    {
        index_of(self.out.as_slice(), unit).is_some()
    }

    /// Takes a unit out. A refusal leaves all as it was.
    pub fn claim(&mut self, seat: u32, unit: &Unit, place: Place) -> Result<(), Memory>
        requires { place_out self.old.out unit.now ≡ None }
        ensures claimed { OnOk result (self.new ≡ record {
          journal = self.old.journal ++ Event.Claim seat unit.now ∷ [];
          out = self.old.out ++ (unit.now, place) ∷ [];
          returned = self.old.returned;
        }) }
        ensures refused { OnErr result (self.new ≡ self.old) }
    {
        let ends = self.out.len() + 1;
        self.returned.reserve(ends)?;
        self.journal.reserve(ends + 1)?;
        self.out.push((*unit, place))?;
        self.journal
            .push_reserved(Event::Claim { seat, unit: *unit });
        Ok(())
    }

    /// Takes home a unit whose work came in, and answers its place.
    pub fn post(&mut self, seat: u32, unit: &Unit) -> Place
        requires { IsSome (place_out self.old.out unit.now) }
        ensures journal { self.new.journal ≡ self.old.journal ++ Event.Post seat unit.now ∷ [] }
        ensures out { TakesHome self.old.out unit.now self.new.out }
        ensures returned { self.new.returned ≡ self.old.returned }
    {
        let place = take_home(&mut self.out, unit);
        self.journal
            .push_reserved(Event::Post { seat, unit: *unit });
        place
    }

    /// Takes home a unit without work.
    pub fn give_back(&mut self, seat: u32, unit: &Unit)
        requires { IsSome (place_out self.old.out unit.now) }
        ensures journal { self.new.journal ≡ self.old.journal ++ Event.GiveBack seat unit.now ∷ [] }
        ensures out { TakesHome self.old.out unit.now self.new.out }
        ensures returned { (place : Place) × (place_out self.old.out unit.now ≡ Some place) × (self.new.returned ≡ self.old.returned ++ place ∷ []) }
    {
        let place = take_home(&mut self.out, unit);
        self.returned.push_reserved(place);
        self.journal
            .push_reserved(Event::GiveBack { seat, unit: *unit });
    }
}
