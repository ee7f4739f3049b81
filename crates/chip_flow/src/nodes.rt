//! Nodes of a chip's analysis.

ghost use Rattle.std.specs.Prelude.{◌≡◌, []};
ghost use Rattle.call_context.specs.Nodes.{frame_of as the_frame};

use call_context::{Calls, Frame, Node};

/// The node that each run begins in: the address behind reset.
pub fn start_node(reset: u16) -> Node
    ensures { result ≡ Node.At reset [] Frame.Base }
{
    Node::At(reset, Calls::new(), Frame::Base)
}

/// The frame of a node.
pub fn frame_of(node: &Node) -> &Frame
    ensures { result.now ≡ the_frame node.now }
{
    match node {
        Node::At(_, _, frame) | Node::Exit(_, frame) => frame,
    }
}
