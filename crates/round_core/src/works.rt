//! The units of a book that were done.

ghost use Rattle.std.specs.Prelude.{false, filter, ◌≡◌, ◌≤◌, ◌+◌, ◌<◌, [], map, IfOk, OnOk, IfSome, MatchOption, length, slice_get, Some, None, ◌^◌, ℕ};
ghost use Rattle.std.specs.List.{AllByRecursion};
ghost use Rattle.std.specs.Option.{option_map};
ghost use Rattle.round_core.specs.Former.{is_no_unit};
ghost use Rattle.book_rules.specs.Kept.{is_live};
ghost use Rattle.book_rules.specs.Machine.{Done, done_at, with_done, waits_for};

use crate::former::{live_works, waits};
use crate::place::Place;
use crate::table::Table;
use book_rules::Versions;
use call_context::{Frame, Node, Unit, equal_nodes_are_one};
use chip_analysis::Work;
use no_memory::Memory;
use std::alloc::Global;
use std::marker::Model;

/// Units with their last works and the versions of their inputs, in the order in which they were first done.
#[derive(Drop)]
pub struct Works<A> {
    table: Table<Unit, Work<A>, Versions>,
    /// By the places of locations. Who looks there sees whether it is so, and else looks the unit or the node up, so no
    /// contract speaks of it.
    own: Vec<Guess>,
}

/// Where the last work of a location may stand, and the node that it posted to first.
#[derive(Clone, Copy)]
struct Guess {
    work: usize,
    posted: usize,
}

impl Guess {
    const NONE: Guess = Guess {
        work: usize::MAX,
        posted: usize::MAX,
    };
}

/// Notes a guess for the unit at a place.
fn note(own: &mut Vec<Guess>, place: Place, guess: Guess) {
    if let Place::One(node) = place {
        if let Some(known) = own.get_mut(node) {
            *known = guess;
        }
    }
}

impl<A> Model for Works<A> {
    ghost use Rattle.std.specs.Prelude.{map};
    ghost use Rattle.round_core.specs.Rows.{Rows};
    ghost use Rattle.book_rules.specs.Machine.{Done};
    ghost use Rattle.round_core.specs.Works.{done_of};

    ghost Value = { Rows (Done A) };

    ghost view = { λ works. record { rows = map done_of works.table.rows; room = works.table.room } };
}

impl<A> Works<A> {
    /// None.
    pub fn new(alloc: Global) -> Self
        ensures { result.rows ≡ [] }
    {
        Works {
            table: Table::new(alloc),
            own: Vec::new(alloc),
        }
    }

    /// The units with their last works.
    pub fn as_slice(&self) -> &[(Unit, Work<A>)]
        ensures { result.now ≡ map (λ row. (row.unit, row.work)) self.now.rows }
    {
        self.table.as_slice()
    }

    /// The same as a vector.
    pub fn into_vec(self) -> Vec<(Unit, Work<A>)>
        ensures { result.items ≡ map (λ row. (row.unit, row.work)) self.rows }
    {
        let (_, works) = self.table.into_parts();
        works
    }

    /// The units that are still units of the book, with their last works.
    pub fn into_live(self) -> Vec<(Unit, Work<A>)>
    where
        A: Drop,
        requires { AllByRecursion (λ row. is_no_unit row.unit ≡ false) self.rows }
        ensures { result.items ≡ filter (λ p. is_live self.rows p.0) (map (λ row. (row.unit, row.work)) self.rows) }
    {
        let (places, works) = self.table.into_parts();
        live_works(&places, works)
    }

    /// What is noted for the unit at a place.
    fn guess(&self, place: Place) -> Guess {
        match place {
            Place::One(node) => self.own.get(node).copied().unwrap_or(Guess::NONE),
            Place::Back(..) => Guess::NONE,
        }
    }

    /// Where the node may stand that the last work of the unit at a place posted to first.
    pub fn posted(&self, place: Place) -> usize {
        self.guess(place).posted
    }

    /// Where the last work of a unit stands, whose place may be this one, with that work and the versions of its inputs.
    pub fn find(&self, unit: &Unit, place: Place) -> Option<(usize, &Work<A>, Versions)>
        ensures { MatchOption result (done_at self.now.rows unit.now ≡ None) (λ found. done_at self.now.rows unit.now ≡ Some (record { unit = unit.now; work = found.1.now; versions = found.2 })) }
    {
        equal_nodes_are_one();
        self.table.find_near(unit, self.guess(place).work)
    }

    /// Whether the last work of a location, whose place may be this one, waits for a frame.
    pub fn waits_for(&self, place: usize, node: &Node, frame: &Frame) -> bool
        ensures { result ≡ waits_for self.now.rows node.now frame.now }
    {
        match self.find(&Unit::One(*node), Place::One(place)) {
            Some((_, work, _)) => waits(work, frame),
            None => false,
        }
    }

    /// Whether a unit that was done is still one of the book.
    pub fn is_live(&self, unit: &Unit) -> bool
        ensures { result ≡ is_live self.now.rows unit.now }
    {
        match unit {
            Unit::One(_) => true,
            Unit::Back(node, Node::At(_, _, frame) | Node::Exit(_, frame)) => {
                self.waits_for(usize::MAX, node, frame)
            }
        }
    }

    /// Room for one more, over a book with so many nodes. The rows stay as they are.
    pub fn reserve(&mut self, nodes: usize) -> Result<(), Memory>
        ensures rows { self.new.rows ≡ self.old.rows }
        ensures room { OnOk result (1 ≤ self.new.room) }
    {
        if self.own.len() < nodes {
            self.own.resize(nodes, Guess::NONE)?;
        }
        self.table.reserve(1)
    }

    /// Puts a row in the place of the one with its unit, or last, and notes where the node of its first post may stand. There
    /// is room for it. It answers the work that it replaces.
    pub fn set(
        &mut self,
        unit: Unit,
        work: Work<A>,
        versions: Versions,
        place: Place,
        posted: usize,
    ) -> Option<Work<A>>
    where
        A: Drop,
        requires { 0 < self.old.room }
        ensures rows { self.new.rows ≡ with_done self.old.rows (record { unit = unit; work = work; versions = versions }) }
        ensures room { self.old.room ≤ self.new.room + 1 }
    {
        equal_nodes_are_one();
        let known = self.table.place_near(&unit, self.guess(place).work);
        let work_at = known.unwrap_or(self.table.len());
        let guess = Guess {
            work: work_at,
            posted,
        };
        note(&mut self.own, place, guess);
        self.table.set_at(known, unit, work, versions)
    }
}
