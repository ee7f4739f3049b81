//! The units that may be claimable.

ghost use Rattle.std.specs.Prelude.{◌≡◌, [], IfOk, OnOk};
ghost use Rattle.round_core.specs.Opening.{ExpectsOne};

use crate::candidates::add_candidate;
use crate::place::Place;
use crate::places::Places;
use call_context::Node;
use no_memory::Memory;
use std::alloc::Global;
use std::collections::BTreeSet;

/// Candidates for the next claim, in the order in which they are claimed. Each unit that can be claimed is among
/// them, perhaps with others: a unit that was added in vain does no harm.
#[derive(Drop)]
pub struct Agenda {
    pub candidates: BTreeSet<Place>,
    /// The locations that have waited for a frame.
    pub waiting: Places,
    /// The exits of a frame.
    pub exits: Places,
}

impl Agenda {
    /// Nothing.
    pub fn new(alloc: Global) -> Self
        ensures candidates { result.candidates.keys ≡ [] }
        ensures waiting { result.waiting ≡ [] }
        ensures exits { result.exits ≡ [] }
    {
        Agenda {
            candidates: BTreeSet::new(alloc),
            waiting: Places::new(alloc),
            exits: Places::new(alloc),
        }
    }

    /// Adds the own work of the first node, or notes it as an exit.
    fn expect_first(&mut self, node: &Node) -> Result<(), Memory>
        ensures { OnOk result (ExpectsOne self.new node.now) }
    {
        match node {
            Node::At(..) => add_candidate(&mut self.candidates, Place::One(0)),
            Node::Exit(_, frame) => self.exits.add(frame, 0),
        }
    }

    /// What may be claimable where one node rose, and nothing was done.
    pub fn of_one(alloc: Global, node: &Node) -> Result<Self, Memory>
        ensures { IfOk result (λ agenda. ExpectsOne agenda node.now) }
    {
        let mut agenda = Agenda::new(alloc);
        agenda.expect_first(node)?;
        Ok(agenda)
    }
}
