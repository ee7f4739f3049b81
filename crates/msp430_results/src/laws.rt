//! What holds of the operations on sets.

ghost use Rattle.msp430_results.specs.InstructionLaws.{InstructionLaws};
ghost use Rattle.msp430_results.specs.Laws.{OperationLaws};

use irq_frames::known_laws;
use msp430_chip::place_laws;

/// Each operation: where the operands' sets have the values, the set of results has the result that the chip may make, and
/// what is known of the flags holds of those that it sets. The sets of results are in normal form.
pub fn operations_hold()
    ensures { OperationLaws }
{
    known_laws();
}

/// All laws that a proof of what an instruction makes of a state takes: of what is known, of the chip's registers and accesses,
/// and of results.
pub fn instruction_laws()
    ensures { InstructionLaws }
{
    known_laws();
    place_laws();
    operations_hold();
}
