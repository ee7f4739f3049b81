//! The book and its readings.

ghost use Rattle.std.specs.Prelude.{◌≡◌, ◌↔◌, ◌<◌, ◌≤◌, ◌^◌, ℕ, [], IsTrue, IfOk};
ghost use Rattle.book_rules.specs.Claimable.{HasAtLeast};
ghost use Rattle.book_rules.specs.Kept.{nodes_of, works_of, is_live, live_pairs};
ghost use Rattle.book_rules.specs.Machine.{replay, HasClaimable, IsFinished, IsLegalJournal};

use crate::parts::Parts;
use crate::spent::Spent;
use book_rules::{Event, works_are_of_locations};
use call_context::{Node, Unit};
use chip_analysis::{Chip, Work};
use no_memory::Memory;
use std::alloc::Global;
use std::marker::Model;
use std::mem;
use std::snapshot::Snapshot;

/// The nodes of an analysis with their states, the last works of its units, and what happened to them. Contracts see
/// the chip's program with options, and the journal: all else is what its replay gives.
#[derive(Drop)]
pub struct Book<C: Chip> {
    /// Only clauses read it: a snapshot has no bytes, so that a book holds no program.
    chip: Snapshot<C>,
    pub(crate) parts: Parts<C::Abs>,
    pub(crate) spent: Spent<C::Abs>,
}

impl<C: Chip> Model for Book<C> {
    ghost use Rattle.book_rules.specs.Kept.{Kept};
    ghost use Rattle.round_core.specs.Shown.{IsBook};

    ghost Value = { Kept C.Base };

    ghost view = { λ b. record { base = C.base b.chip.value; journal = b.parts.turns.journal } };

    ghost invariant = { λ b. IsBook (C.analysis (C.base b.chip.value)) b.parts.turns.journal b.parts };
}

impl<C: Chip> Book<C> {
    /// A book with the chip's start alone.
    pub fn open(alloc: Global, chip: &C) -> Result<Self, Memory>
        ensures { IfOk result (λ book. book ≡ record { base = C.base chip.now; journal = [] }) }
    {
        let (node, state) = chip.start(alloc)?;
        let parts = Parts::open(alloc, node, state)?;
        Ok(Book {
            chip: Snapshot::of(chip),
            parts,
            spent: Spent::new(alloc),
        })
    }

    /// The nodes with their states, in the order of their first post.
    pub fn nodes(&self) -> &[(Node, C::Abs)]
        ensures { result.now ≡ nodes_of (replay (C.analysis self.now.base) self.now.journal) }
    {
        self.parts.nodes.as_slice()
    }

    /// The last work of each unit that was done, in the order in which the units were first done.
    pub fn works(&self) -> &[(Unit, Work<C::Abs>)]
        ensures { result.now ≡ works_of (replay (C.analysis self.now.base) self.now.journal) }
    {
        self.parts.works.as_slice()
    }

    /// All that happened, in order: each event was legal at its place.
    pub fn journal(&self) -> &[Event]
        ensures events { result.now ≡ self.now.journal }
        ensures legal { IsLegalJournal (C.analysis self.now.base) self.now.journal }
    {
        self.parts.turns.journal()
    }

    /// The nodes with their states, the last works, and the journal.
    pub fn into_parts(self) -> (Vec<(Node, C::Abs)>, Vec<(Unit, Work<C::Abs>)>, Vec<Event>)
        ensures nodes { result.0.items ≡ nodes_of (replay (C.analysis self.base) self.journal) }
        ensures works { result.1.items ≡ works_of (replay (C.analysis self.base) self.journal) }
        ensures journal { result.2.items ≡ self.journal }
    {
        self.parts.into_vecs()
    }

    /// What contracts see of the chip, the nodes with their states, the units of the book with their last works, and the
    /// journal. Returns whose location no longer waits for the exit's frame are left out, in place.
    pub fn into_live(
        self,
    ) -> (
        Snapshot<C>,
        Vec<(Node, C::Abs)>,
        Vec<(Unit, Work<C::Abs>)>,
        Vec<Event>,
    )
        ensures base { C.base result.0.value ≡ self.base }
        ensures nodes { result.1.items ≡ nodes_of (replay (C.analysis self.base) self.journal) }
        ensures works { result.2.items ≡ live_pairs (replay (C.analysis self.base) self.journal) }
        ensures journal { result.3.items ≡ self.journal }
    {
        works_are_of_locations::<C>();
        let Book {
            chip,
            parts,
            spent: _,
        } = self;
        let (nodes, works, journal) = parts.into_live();
        (chip, nodes, works, journal)
    }

    /// Hands out what posts have replaced since it was last handed out, so that it is freed where no one waits for the book.
    pub fn take_spent(&mut self) -> Spent<C::Abs>
        ensures { self.new ≡ self.old }
    {
        let alloc = self.parts.nodes.allocator();
        self.exchange_spent(Spent::new(alloc))
    }

    /// The same, and what posts replace from now on goes into another one, which may have room.
    pub fn exchange_spent(&mut self, next: Spent<C::Abs>) -> Spent<C::Abs>
        ensures { self.new ≡ self.old }
    {
        mem::replace(&mut self.spent, next)
    }

    /// Whether a unit that was done is still one of the book: a return whose location no longer waits for the frame of
    /// the exit isn't.
    pub fn is_live(&self, unit: &Unit) -> bool
        ensures { result ≡ is_live (replay (C.analysis self.now.base) self.now.journal).done unit.now }
    {
        self.parts.works.is_live(unit)
    }

    /// Whether at least so many units can be claimed.
    pub fn can_claim(&self, least: u32) -> bool
        ensures { IsTrue result ↔ HasAtLeast (replay (C.analysis self.now.base) self.now.journal) least }
    {
        self.parts.can_claim(least)
    }

    /// How many places the next claims may look at: no fewer than the units that can be claimed now. It looks at none of them.
    pub fn candidates(&self) -> usize
        ensures { (least : ℕ) → least < 2 ^ 64
            → HasAtLeast (replay (C.analysis self.now.base) self.now.journal) least → least ≤ result }
    {
        self.parts.candidates()
    }

    /// Whether a unit can be claimed.
    pub fn has_claimable(&self) -> bool
        ensures { IsTrue result ↔ HasClaimable (replay (C.analysis self.now.base) self.now.journal) }
    {
        self.parts.has_claimable()
    }

    /// Whether no unit is out and none can be claimed.
    pub fn finished(&self) -> bool
        ensures { IsTrue result ↔ IsFinished (replay (C.analysis self.now.base) self.now.journal) }
    {
        self.parts.is_finished()
    }
}
