//! The nodes that a post raises.

ghost use Rattle.std.specs.Prelude.{◌≡◌, ◌==◌, ◌+◌, ◌<◌, [], List, IfOk, IfSome, OnOk, if◌then◌else◌, length};
ghost use Rattle.book_rules.specs.Machine.{Held, place_of, with_held};
ghost use Rattle.round_core.specs.Raise.{held_of, held_rows, place_for, risen_over, RisesOver};

use crate::key::same_node;
use call_context::Node;
use no_memory::Memory;
use std::alloc::Global;

/// A node that a post raises, what it has then, and the place in the book that it has or gets.
#[derive(Drop)]
pub struct Risen<A> {
    pub place: usize,
    pub node: Node,
    pub state: A,
    pub rises: u32,
}

/// The nodes that a post raises, each once, and the place in the book that the next new one gets.
#[derive(Drop)]
pub struct Raised<A> {
    pub rows: Vec<Risen<A>>,
    pub next: usize,
    /// Where the node of the first post may stand when the unit is done again. No contract speaks of it.
    pub guess: usize,
}

/// Where a node stands among rows. A post raises few nodes, so they are looked through.
pub fn index_of<A>(rows: &[Risen<A>], node: &Node) -> Option<usize>
    ensures index { result ≡ place_of (held_rows rows.now) node.now }
    ensures bound { IfSome result (λ index. index < length rows.now) }
{
    for index in 0..rows.len() {
        if same_node(node, &rows[index].node) {
            return Some(index);
        }
    }
    None
}

/// The place that the next new node gets once a node has its place.
fn next_behind(next: usize, place: usize) -> Result<usize, Memory>
    ensures { IfOk result (λ behind. behind ≡ (if place == next then next + 1 else next)) }
{
    if place == next {
        next.checked_add(1).ok_or(Memory)
    } else {
        Ok(next)
    }
}

impl<A: Drop> Raised<A> {
    /// None, over a book with so many nodes.
    pub fn new(alloc: Global, nodes: usize) -> Self
        ensures over { (known : List (Held A)) → nodes ≡ length known → RisesOver known result }
        ensures empty { result.rows.items ≡ [] }
    {
        Raised {
            rows: Vec::new(alloc),
            next: nodes,
            guess: nodes,
        }
    }

    /// Puts a row in the place of the one with its node, or last, and answers its place in the book. Places that no number
    /// counts are refused.
    pub fn put(&mut self, risen: Risen<A>) -> Result<usize, Memory>
        ensures rows { OnOk result (held_rows self.new.rows.items ≡ with_held (held_rows self.old.rows.items) (held_of risen)) }
        ensures over { (nodes : List (Held A)) → RisesOver nodes self.old
            → risen.place ≡ place_for (risen_over nodes self.old) risen.node
            → OnOk result (RisesOver nodes self.new) }
    {
        let place = risen.place;
        match index_of(self.rows.as_slice(), &risen.node) {
            Some(index) => self.rows[index] = risen,
            None => {
                let next = next_behind(self.next, place)?;
                self.rows.push(risen)?;
                self.next = next;
            }
        }
        Ok(place)
    }
}
