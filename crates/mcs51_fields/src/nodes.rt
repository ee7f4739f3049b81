//! The nodes of the chip.

ghost use Rattle.std.specs.Prelude.{◌≡◌, true};
ghost use Rattle.std.specs.List.{list_all};
ghost use Rattle.call_context.specs.Nodes.{frame_of};
ghost use Rattle.mcs51_state.specs.Known.{is_interrupt};
ghost use Rattle.mcs51_fields.specs.Nodes as nodes;

use call_context::{Frame, Node};
use node_fields::has_entry;

/// Each address has 16 bits.
fn keep_words(words: &[u16])
    ensures { list_all nodes.is_word words.now ≡ true }
{
    for word in words {
        let _word = *word;
    }
}

/// Whether a stack pointer is a byte, if there is one.
fn is_entry_sp(sp: Option<u16>) -> bool
    ensures { result ≡ nodes.is_entry_sp sp }
{
    match sp {
        None => true,
        Some(sp) => sp < 256,
    }
}

/// Whether a frame is one of the six interrupts, of level 1 to 3, or none.
fn is_frame(frame: &Frame) -> bool
    ensures { result ≡ nodes.is_frame frame.now }
{
    match frame {
        Frame::Base => true,
        Frame::Irq { vector, sp, level } => {
            *vector < 6 && is_entry_sp(*sp) && 1 <= *level && *level <= 3
        }
    }
}

/// Whether a node is one of the chip: at most eight call sites, a frame of the chip, and that of an exit with a stack
/// pointer.
pub(crate) fn is_node(node: &Node) -> bool
    ensures { result ≡ nodes.is_node node.now }
{
    match node {
        Node::At(pc, calls, frame) => {
            let _pc = *pc;
            keep_words(calls.as_slice());
            calls.len() <= 8 && is_frame(frame)
        }
        Node::Exit(pc, frame) => {
            let _pc = *pc;
            is_frame(frame) && has_entry(frame)
        }
    }
}

/// Whether a node is in the frame of an interrupt.
pub(crate) fn is_framed(node: &Node) -> bool
    ensures { result ≡ is_interrupt (frame_of node.now) }
{
    match node {
        Node::At(_, _, Frame::Irq { .. }) | Node::Exit(_, Frame::Irq { .. }) => true,
        _ => false,
    }
}
