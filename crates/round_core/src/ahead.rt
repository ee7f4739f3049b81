//! What posts make of nodes, worked out ahead of the turn in which they are posted.

ghost use Rattle.std.specs.Prelude.{◌≡◌, ◌∷◌, [], List, IfOk, IfSome, MatchOption};
ghost use Rattle.round_core.specs.Ahead.{AreLooked, IsAhead, IsLooked, IsMet};
ghost use Rattle.book_rules.specs.Machine.{Held};

use crate::key::same_node;
use crate::met::{Met, MetNode};
use crate::raise::risen_row;
use crate::ticket::Done;
use call_context::Node;
use chip_analysis::Chip;
use no_memory::Memory;
use std::alloc::Global;
use std::collections::VecDeque;
use std::marker::Model;

/// What a post makes of a node that has risen so often: nothing, or a state with its rises.
#[derive(Drop)]
pub struct Looked<A> {
    pub rises: u32,
    pub row: Option<(A, u32)>,
}

/// What the first posts of a work make of their nodes, as far as these don't rise before.
#[derive(Drop)]
pub struct Ahead<A> {
    rows: VecDeque<Looked<A>>,
}

impl<A> Model for Ahead<A> {
    ghost use Rattle.std.specs.Prelude.{List};
    ghost use Rattle.round_core.specs.declared.ahead.Looked.{Looked};

    ghost Value = { List (Looked A) };

    ghost view = { λ ahead. ahead.rows.items };
}

impl<A: Drop> Ahead<A> {
    /// Nothing is worked out.
    pub fn none(alloc: Global) -> Self
        ensures { result ≡ [] }
    {
        Ahead {
            rows: VecDeque::new(alloc),
        }
    }

    /// What the next post makes of its node.
    pub(crate) fn take_first(&mut self) -> Option<Looked<A>>
        ensures { MatchOption result ((self.old ≡ []) × (self.new ≡ [])) (λ first. self.old ≡ first ∷ self.new) }
    {
        self.rows.pop_front()
    }
}

/// What a post makes of a node that was met, unless it goes to another one.
fn looked_at<C: Chip>(
    alloc: Global,
    chip: &C,
    met: &MetNode<C::Abs>,
    node: &Node,
    posted: &C::Abs,
) -> Result<Option<Looked<C::Abs>>, Memory>
    ensures { IfOk result (λ looked. (nodes : List (Held C.Abs)) → IsMet nodes met.now
        → IfSome looked (IsLooked (C.analysis (C.base chip.now)) nodes (node.now, posted.now))) }
{
    if !same_node(node, &met.node) {
        return Ok(None);
    }
    let row = risen_row(alloc, chip, node, &met.state, met.rises, posted)?;
    Ok(Some(Looked {
        rises: met.rises,
        row,
    }))
}

/// What the first posts make of the nodes that were met.
fn looked_over<C: Chip>(
    alloc: Global,
    chip: &C,
    met: &Met<C::Abs>,
    posts: &[(Node, C::Abs)],
) -> Result<VecDeque<Looked<C::Abs>>, Memory>
    ensures { IfOk result (λ rows. AreLooked (C.analysis (C.base chip.now)) met.now posts.now rows.items) }
{
    let mut rows = VecDeque::new(alloc);
    for (node, posted) in posts {
        let Some(met) = met.get(rows.len()) else {
            return Ok(rows);
        };
        match looked_at(alloc, chip, met, node, posted)? {
            Some(looked) => rows.push_back(looked)?,
            None => return Ok(rows),
        }
    }
    Ok(rows)
}

impl<C: Chip> Done<C> {
    /// Works out what the work's posts make of the nodes that its unit's last work posted to, as these were when it was
    /// claimed. Where memory runs out nothing is worked out.
    pub fn look_ahead(&self, alloc: Global, chip: &C) -> Ahead<C::Abs>
        ensures { IsAhead (C.analysis (C.base chip.now)) self.now result }
    {
        match looked_over(alloc, chip, self.ticket.met(), self.work.posts.as_slice()) {
            Ok(rows) => Ahead { rows },
            Err(Memory) => Ahead::none(alloc),
        }
    }
}
