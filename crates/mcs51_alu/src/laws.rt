//! What holds of instructions that write the accumulator.

ghost use Rattle.mcs51_alu.specs.Laws.{AccumulatorsDo, AccumulatorsHold};

use mcs51_results::instruction_laws;

/// The state that the chip comes to by an instruction that writes the accumulator stands under what is said, whatever number the
/// chip reads. What is said is in form.
pub fn accumulators_hold()
    ensures { AccumulatorsHold }
{
    instruction_laws();
}

/// An instruction that writes the accumulator does what is said of it: it shows its accesses, goes on behind itself, and the state
/// that it leads to stands under what is said.
pub fn accumulators_do()
    ensures { AccumulatorsDo }
{
    instruction_laws();
}
