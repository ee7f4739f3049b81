//! What holds of calls, returns and jumps.

ghost use Rattle.mcs51_control.specs.Laws.{ReturnLaws, TransfersDo};

use mcs51_results::instruction_laws;

/// The state that RET, or RETI, leaves stands under what is said, at one of the targets, and its reads are shown. Where RETI
/// goes back, it is in the frame of an interrupt that came at a known stack pointer, and goes on where that came. What is
/// said is in form.
pub fn return_laws()
    ensures { ReturnLaws }
{
    instruction_laws();
}

/// A jump that is always taken, a call and a return do what is said of them: each shows its accesses and goes on at one of its
/// targets, in a state that stands under what is said.
pub fn transfers_do()
    ensures { TransfersDo }
{
    instruction_laws();
}
