//! What chips ask of their nodes alike.

ghost use Rattle.std.specs.Prelude.{◌≡◌};
ghost use Rattle.node_fields.specs.Tests as tests;

use call_context::Frame;

/// Whether a frame was entered at one stack pointer.
pub fn has_entry(frame: &Frame) -> bool
    ensures { result ≡ tests.has_entry frame.now }
{
    match frame {
        Frame::Irq { sp: Some(_), .. } => true,
        _ => false,
    }
}
