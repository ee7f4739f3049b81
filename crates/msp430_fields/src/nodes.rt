//! The nodes of the chip.

ghost use Rattle.std.specs.Prelude.{◌≡◌};
ghost use Rattle.std.specs.List.{list_all};
ghost use Rattle.call_context.specs.Nodes.{frame_of};
ghost use Rattle.msp430_state.specs.Known.{is_interrupt};
ghost use Rattle.msp430_fields.specs.Nodes as nodes;

use call_context::{Frame, Node};
use node_fields::has_entry;

/// Whether an address is even.
fn is_even_word(word: u16) -> bool
    ensures { result ≡ nodes.is_even_word word }
{
    word % 2 == 0
}

/// Whether each of some addresses is even.
fn are_even_words(words: &[u16]) -> bool
    ensures { result ≡ list_all nodes.is_even_word words.now }
{
    for word in words {
        if !is_even_word(*word) {
            return false;
        }
    }
    true
}

/// Whether a stack pointer is even, if there is one.
fn is_entry_sp(sp: Option<u16>) -> bool
    ensures { result ≡ nodes.is_entry_sp sp }
{
    match sp {
        None => true,
        Some(sp) => is_even_word(sp),
    }
}

/// Whether a frame is one of the 14 interrupts, all of one level, or none.
fn is_frame(frame: &Frame) -> bool
    ensures { result ≡ nodes.is_frame frame.now }
{
    match frame {
        Frame::Base => true,
        Frame::Irq { vector, sp, level } => *vector < 14 && is_entry_sp(*sp) && *level == 0,
    }
}

/// Whether a node is one of the chip: even addresses, at most eight call sites, a frame of the chip, and that of an exit
/// with a stack pointer.
pub(crate) fn is_node(node: &Node) -> bool
    ensures { result ≡ nodes.is_node node.now }
{
    match node {
        Node::At(pc, calls, frame) => {
            is_even_word(*pc)
                && calls.len() <= 8
                && are_even_words(calls.as_slice())
                && is_frame(frame)
        }
        Node::Exit(pc, frame) => is_even_word(*pc) && is_frame(frame) && has_entry(frame),
    }
}

/// Whether a node is in the frame of an interrupt.
pub(crate) fn is_framed(node: &Node) -> bool
    ensures { result ≡ is_interrupt (frame_of node.now) }
{
    match node {
        Node::At(_, _, Frame::Irq { .. }) | Node::Exit(_, Frame::Irq { .. }) => true,
        _ => false,
    }
}
