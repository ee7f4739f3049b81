//! Keys of tables, and whether two are one. A call string is looked at no further than it goes, which most are told apart
//! or found equal without.

ghost use Rattle.std.specs.Prelude.{◌≡◌};
ghost use Rattle.book_rules.specs.Same.{same_node, same_numbers, same_unit};

use call_context::{Calls, Node, Unit, equal_nodes_are_one};
use std::hash::Hash;

/// A key of a table.
pub trait Key: Copy + Eq + Hash + Drop {
    /// Whether two keys are one.
    fn is_same(&self, other: &Self) -> bool
        ensures { result ≡ Self.eq self.now other.now };
}

/// Whether two call strings are one.
fn same_calls(calls: &Calls, others: &Calls) -> bool
    ensures { result ≡ same_numbers calls.now others.now }
{
    calls.as_slice() == others.as_slice()
}

/// Whether two nodes are one.
pub fn same_node(node: &Node, other: &Node) -> bool
    ensures { result ≡ same_node node.now other.now }
{
    equal_nodes_are_one();
    match (node, other) {
        (Node::At(pc, calls, frame), Node::At(other_pc, others, other_frame)) => {
            pc == other_pc && same_calls(calls, others) && frame == other_frame
        }
        (Node::Exit(pc, frame), Node::Exit(other_pc, other_frame)) => {
            pc == other_pc && frame == other_frame
        }
        _ => false,
    }
}

/// Whether two units are one.
pub fn same_unit(unit: &Unit, other: &Unit) -> bool
    ensures { result ≡ same_unit unit.now other.now }
{
    match (unit, other) {
        (Unit::One(node), Unit::One(other)) => same_node(node, other),
        (Unit::Back(node, exit), Unit::Back(other, left)) => {
            same_node(node, other) && same_node(exit, left)
        }
        _ => false,
    }
}

impl Key for Node {
    fn is_same(&self, other: &Self) -> bool {
        equal_nodes_are_one();
        same_node(self, other)
    }
}

impl Key for Unit {
    fn is_same(&self, other: &Self) -> bool {
        equal_nodes_are_one();
        same_unit(self, other)
    }
}
