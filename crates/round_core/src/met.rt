//! What nodes held when a unit was claimed.

ghost use Rattle.std.specs.Prelude.{◌≡◌, IfOk, IfSome};
ghost use Rattle.round_core.specs.Ahead.{IsMet};

use crate::nodes::Nodes;
use call_context::Node;
use chip_analysis::Chip;
use no_memory::Memory;
use std::alloc::Global;
use std::marker::Model;
use std::snapshot::Snapshot;

/// A node with its state, and how often that had risen.
#[derive(Drop)]
pub struct MetNode<A> {
    pub node: Node,
    pub state: A,
    pub rises: u32,
}

/// What some nodes held when a unit was claimed.
#[derive(Drop)]
pub struct Met<A> {
    /// All nodes as they were then. Only clauses read it: a snapshot has no bytes.
    then: Snapshot<Nodes<A>>,
    rows: Vec<MetNode<A>>,
}

impl<A> Model for Met<A> {
    ghost use Rattle.std.specs.Prelude.{List};
    ghost use Rattle.std.specs.List.{AllByRecursion};
    ghost use Rattle.round_core.specs.Ahead.{IsMet};
    ghost use Rattle.book_rules.specs.Machine.{Held};

    ghost Value = { List (Held A) };

    ghost view = { λ met. met.then.value.rows };

    ghost invariant = { λ met. AllByRecursion (IsMet met.then.value.rows) met.rows.items };
}

impl<A> Met<A> {
    /// None of these nodes.
    pub fn none(alloc: Global, nodes: &Nodes<A>) -> Self
        ensures { result ≡ nodes.now.rows }
    {
        Met {
            then: Snapshot::of(nodes),
            rows: Vec::new(alloc),
        }
    }

    /// Whether there are none.
    pub fn is_empty(&self) -> bool {
        self.rows.is_empty()
    }

    /// What a node held.
    pub fn get(&self, index: usize) -> Option<&MetNode<A>>
        ensures { IfSome result (λ met. IsMet self.now met.now) }
    {
        self.rows.get(index)
    }

    /// What nodes held, without the rest.
    pub fn into_rows(self) -> Vec<MetNode<A>> {
        self.rows
    }
}

/// What the nodes hold that posts go to. The first node may stand at `guess`, and further ones behind it.
pub fn met_by<C: Chip>(
    alloc: Global,
    chip: &C,
    nodes: &Nodes<C::Abs>,
    posts: &[(Node, C::Abs)],
    guess: usize,
) -> Result<Met<C::Abs>, Memory>
    ensures { IfOk result (λ met. met ≡ nodes.now.rows) }
{
    let mut rows = Vec::with_capacity(alloc, posts.len())?;
    let mut near = guess;
    for (node, _) in posts {
        if let Some((place, state, rises)) = nodes.find_near(node, near) {
            let state = chip.copy(alloc, state)?;
            rows.push(MetNode {
                node: *node,
                state,
                rises,
            })?;
            near = place.wrapping_add(1);
        }
    }
    Ok(Met {
        then: Snapshot::of(nodes),
        rows,
    })
}
