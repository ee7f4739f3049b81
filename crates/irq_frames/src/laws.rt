//! What holds of touched ranges, of cells where a handler begins, and of what goes on behind it. The chips' laws call these.

ghost use Rattle.irq_frames.specs.KnownLaws.{KnownLaws};
ghost use Rattle.irq_frames.specs.Laws.{FrameLaws, RangeLaws};

use entry_value::{cell_laws, value_laws};
use value_bits::bit_laws;
use value_set::set_laws;

/// All laws of touched ranges.
pub fn range_laws()
    ensures { RangeLaws }
{}

/// All laws of cells where a handler begins, and of words and cells that go on behind it.
pub fn frame_laws()
    ensures { FrameLaws }
{
    value_laws();
    cell_laws();
}

/// All laws that a proof over what is known of a state takes, for both chips.
pub fn known_laws()
    ensures { KnownLaws }
{
    set_laws();
    bit_laws();
    value_laws();
    cell_laws();
    range_laws();
    frame_laws();
}
