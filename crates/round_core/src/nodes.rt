//! The nodes of a book.

ghost use Rattle.std.specs.Prelude.{◌≡◌, ◌≤◌, ◌+◌, ◌<◌, [], map, nat_lt, if◌then◌else◌, IfOk, OnOk, IfSome, MatchOption, length, slice_get, Some, None, ◌^◌, ℕ};
ghost use Rattle.std.specs.Option.{option_map};
ghost use Rattle.book_rules.specs.Machine.{Held, held_at, with_held, place_of, version_of};
ghost use Rattle.round_core.specs.Nodes.{IsHeld};
ghost use Rattle.round_core.specs.Opening.{one_node};
ghost use Rattle.round_core.specs.Raise.{place_for, risen_over, ArePlaced};

use crate::raised::{Raised, Risen};
use crate::spent::Spent;
use crate::table::Table;
use call_context::{Node, equal_nodes_are_one};
use no_memory::Memory;
use std::alloc::Global;
use std::marker::Model;

/// Nodes with their states and how often those rose, in the order of first posts.
#[derive(Drop)]
pub struct Nodes<A> {
    table: Table<Node, A, u32>,
}

/// A place, unless it is behind all.
fn known_place(place: usize, len: usize) -> Option<usize>
    ensures { result ≡ (if nat_lt place len then Some place else None) }
{
    if place < len { Some(place) } else { None }
}

impl<A> Model for Nodes<A> {
    ghost use Rattle.std.specs.Prelude.{map};
    ghost use Rattle.round_core.specs.Rows.{Rows};
    ghost use Rattle.book_rules.specs.Machine.{Held};
    ghost use Rattle.round_core.specs.Nodes.{held_of};

    ghost Value = { Rows (Held A) };

    ghost view = { λ nodes. record { rows = map held_of nodes.table.rows; room = nodes.table.room } };
}

impl<A> Nodes<A> {
    /// None.
    pub fn new(alloc: Global) -> Self
        ensures { result.rows ≡ [] }
    {
        Nodes {
            table: Table::new(alloc),
        }
    }

    /// One node that rose once.
    pub fn of_one(alloc: Global, node: Node, state: A) -> Result<Self, Memory>
    where
        A: Drop,
        ensures { IfOk result (λ nodes. nodes.rows ≡ (one_node node state).nodes) }
    {
        let mut nodes = Nodes::new(alloc);
        nodes.reserve(1)?;
        nodes.set_at(0, node, state, 1);
        Ok(nodes)
    }

    /// The nodes with their states.
    pub fn as_slice(&self) -> &[(Node, A)]
        ensures { result.now ≡ map (λ row. (row.node, row.state)) self.now.rows }
    {
        self.table.as_slice()
    }

    /// The same as a vector.
    pub fn into_vec(self) -> Vec<(Node, A)>
        ensures { result.items ≡ map (λ row. (row.node, row.state)) self.rows }
    {
        let (_, states) = self.table.into_parts();
        states
    }

    /// The place of a node, its state, and how often that rose, which are quickly found where the guess is right.
    pub fn find_near(&self, node: &Node, guess: usize) -> Option<(usize, &A, u32)>
        ensures place { option_map (λ found. found.0) result ≡ place_of self.now.rows node.now }
        ensures held { MatchOption result (held_at self.now.rows node.now ≡ None)
            (λ found. IsHeld self.now.rows node.now found.1.now found.2) }
    {
        equal_nodes_are_one();
        self.table.find_near(node, guess)
    }

    /// The allocator.
    pub fn allocator(&self) -> Global {
        self.table.allocator()
    }

    /// How many there are.
    pub fn len(&self) -> usize
        ensures len { result ≡ length self.now.rows }
        ensures small { result < 2 ^ 63 }
    {
        self.table.len()
    }

    /// The node at a place, its state, and how often that rose.
    pub fn at(&self, place: usize) -> Option<(&Node, &A, u32)>
        ensures row { MatchOption result (length self.now.rows ≤ place)
            (λ found. slice_get self.now.rows place ≡ Some (record { node = found.0.now; state = found.1.now; rises = found.2 })) }
        ensures version { IfSome result (λ found. version_of self.now.rows found.0.now ≡ found.2) }
    {
        equal_nodes_are_one();
        self.table.at(place)
    }

    /// Room for more of them. The rows stay as they are.
    pub fn reserve(&mut self, more: usize) -> Result<(), Memory>
        ensures rows { self.new.rows ≡ self.old.rows }
        ensures room { OnOk result (more ≤ self.new.room) }
    {
        self.table.reserve(more)
    }

    /// Puts a row in the place that its node has, or else last. There is room for it. It answers the state that it replaces.
    pub fn set_at(&mut self, place: usize, node: Node, state: A, rises: u32) -> Option<A>
    where
        A: Drop,
        requires place { place ≡ place_for self.old.rows node }
        requires room { 0 < self.old.room }
        ensures rows { self.new.rows ≡ with_held self.old.rows (record { node = node; state = state; rises = rises }) }
        ensures room { self.old.room ≤ self.new.room + 1 }
    {
        equal_nodes_are_one();
        let known = known_place(place, self.len());
        self.table.set_at(known, node, state, rises)
    }

    /// Puts raised nodes in their places, and keeps what they replace. There is room for them.
    pub fn set_all(&mut self, raised: Raised<A>, spent: &mut Spent<A>)
    where
        A: Drop,
        requires room { length raised.rows.items ≤ self.old.room }
        requires placed { ArePlaced self.old.rows raised.rows.items }
        ensures { self.new.rows ≡ risen_over self.old.rows raised }
    {
        for risen in raised.rows {
            let Risen {
                place,
                node,
                state,
                rises,
            } = risen;
            spent.keep_state(self.set_at(place, node, state, rises));
        }
    }
}
