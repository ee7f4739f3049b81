//! What holds of what instructions make of SR.

ghost use Rattle.msp430_status.specs.Laws.{SingleStatusesHold, StatusesHold};

use irq_frames::known_laws;
use msp430_alu::{doubles_hold, memory_laws};
use msp430_chip::place_laws;

/// The law of instructions with two operands that write SR. A state that stands under what is known may only lead to one
/// that stands under what `status_worked` says, at its next address. Its items show each access, and no store hits the
/// program. What it says is in form, and the next address is even where the one behind is.
pub fn statuses_hold()
    ensures { StatusesHold }
{
    memory_laws();
    doubles_hold();
    place_laws();
}

/// The same of instructions with the one operand SR: `single_status_worked`.
pub fn single_statuses_hold()
    ensures { SingleStatusesHold }
{
    known_laws();
}
