//! What holds of all that is known of states, of operands and of writes. Laws of instructions and of the chip call these.

ghost use Rattle.mcs51_state.specs.Laws.{StateLaws};
ghost use Rattle.mcs51_state.specs.OperandLaws.{AccessesAreShown, JumpTargetsHold, OperandLaws, OperandsStand, ReadsHold};
ghost use Rattle.mcs51_state.specs.StoreLaws.{FlagsFollow, StackFollows, StoreLaws, StoresKeepForm, WritesFollow};

use crate::formats::{accesses_add_up, formats_do};
use irq_frames::known_laws;

/// All laws of states: being within another is an order, in which two states are within their join, within the first one
/// widened by the second, and within the greatest. The first state and the greatest have the form, and joins and widenings
/// keep it. What stands under a state stands under all that this is within, each state behind a reset under the first one,
/// and each state of the chip under the greatest.
pub fn state_laws()
    ensures { StateLaws }
{
    known_laws();
}

/// An operand of the chip stands at one of the addresses that it may have, and these have their form.
pub fn operands_stand()
    ensures { OperandsStand }
{
    known_laws();
}

/// The address of JMP @A+DPTR, and of MOVC A,@A+DPTR, is one of the targets.
pub fn jump_targets_hold()
    ensures { JumpTargetsHold }
{
    known_laws();
}

/// What is read at some addresses holds of each number that the chip may read at one of them, and has the form of bytes. So
/// do the bits of the number, CY, and PSW as a byte, whatever the two bits are that it doesn't hold.
pub fn reads_hold()
    ensures { ReadsHold }
{
    known_laws();
}

/// Each access of the chip to an operand is shown: to the operand itself, and to the register of @Ri.
pub fn accesses_are_shown()
    ensures { AccessesAreShown }
{
    known_laws();
}

/// All laws of operands, for proofs above.
pub fn operand_laws()
    ensures { OperandLaws }
{
    operands_stand();
    reads_hold();
    accesses_are_shown();
    accesses_add_up();
    formats_do();
    jump_targets_hold();
}

/// What is known keeps its form behind writes of bytes in form.
pub fn stores_keep_form()
    ensures { StoresKeepForm }
{
    known_laws();
}

/// What is known behind a write stands for the state behind the chip's write of a number that the byte holds of, at an
/// address where the operand may stand. The program counter doesn't count.
pub fn writes_follow()
    ensures { WritesFollow }
{
    known_laws();
}

/// What is known behind a write of PSW, or of flags in it, stands for the state behind the chip's.
pub fn flags_follow()
    ensures { FlagsFollow }
{}

/// What is known behind a push or a pop stands for the state behind the chip's, and the top byte stands at one of its
/// addresses.
pub fn stack_follows()
    ensures { StackFollows }
{
    known_laws();
}

/// All laws of writes, for proofs above.
pub fn store_laws()
    ensures { StoreLaws }
{
    stores_keep_form();
    writes_follow();
    flags_follow();
    stack_follows();
}
