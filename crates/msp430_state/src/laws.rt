//! What holds of all that is known of states. The chip's laws call these.

ghost use Rattle.msp430_state.specs.Laws.{StateLaws};

use irq_frames::known_laws;

/// Being within another is an order, in which two states are within their join, within the first one widened by the second,
/// and within the greatest. The first state and the greatest have the form, and joins and widenings keep it. What stands under
/// a state stands under all that this is within, and each state of the chip behind a reset under the first one.
pub fn state_laws()
    ensures { StateLaws }
{
    known_laws();
}
