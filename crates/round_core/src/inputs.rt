//! The inputs of a unit.

ghost use Rattle.std.specs.Prelude.{◌≡◌, IsSome, Some};
ghost use Rattle.std.specs.Option.{option_copied};
ghost use Rattle.book_rules.specs.Machine.{held_at, inputs_of, versions_of};
ghost use Rattle.round_core.specs.Nodes.{IsHeld};

use crate::nodes::Nodes;
use crate::place::Place;
use book_rules::Versions;
use call_context::{Node, Unit};

/// The state of a node that is there and may stand at this place, and how often that rose.
fn held_at<'a, A>(nodes: &'a Nodes<A>, node: &Node, place: usize) -> (&'a A, u32)
    requires { IsSome (held_at nodes.now.rows node.now) }
    ensures { IsHeld nodes.now.rows node.now result.0.now result.1 }
{
    match nodes.find_near(node, place) {
        Some((_, state, rises)) => (state, rises),
        None => unreachable!(),
    }
}

/// The input states of a unit that may stand at this place, with their versions. Its nodes are there.
pub fn inputs_of<'a, A>(
    nodes: &'a Nodes<A>,
    unit: &Unit,
    place: Place,
) -> (&'a A, Option<&'a A>, Versions)
    requires { IsSome (inputs_of nodes.now.rows unit.now) }
    ensures states { inputs_of nodes.now.rows unit.now ≡ Some (result.0.now, option_copied result.1) }
    ensures versions { result.2 ≡ versions_of nodes.now.rows unit.now }
{
    let (at_node, at_exit) = place.of_nodes();
    match unit {
        Unit::One(node) => {
            let (state, at) = held_at(nodes, node, at_node);
            (state, None, Versions { at, exit: 0 })
        }
        Unit::Back(node, exit) => {
            let (state, at) = held_at(nodes, node, at_node);
            let (left, exit) = held_at(nodes, exit, at_exit);
            (state, Some(left), Versions { at, exit })
        }
    }
}
