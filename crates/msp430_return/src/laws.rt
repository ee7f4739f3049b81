//! What holds of RETI.

ghost use Rattle.msp430_return.specs.Laws.{ReturnLaws};

use msp430_alu::memory_laws;

/// The law of RETI: a state that stands under what is known may only lead to one that stands under what `return_worked` says,
/// at one of its next addresses, which are even, and its items show each access. What it says is in form. Where it goes back,
/// it is in the frame of an interrupt that came at a known stack pointer, and goes on where that came.
pub fn return_laws()
    ensures { ReturnLaws }
{
    memory_laws();
}
