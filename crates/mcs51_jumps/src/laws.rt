//! What holds of instructions on CY and on bits, and of both ways of jumps.

ghost use Rattle.mcs51_jumps.specs.BitLaws.{BitsDo, BitsKeepForm};
ghost use Rattle.mcs51_jumps.specs.JumpLaws.{JumpsDo, JumpsKeepForm};

use mcs51_branch::branch_laws;
use mcs51_results::instruction_laws;

/// An instruction on CY or on a bit does what is said, whatever number the chip reads.
pub fn bits_do()
    ensures { BitsDo }
{
    instruction_laws();
}

/// What is said behind an instruction on CY or on a bit is in form.
pub fn bits_keep_form()
    ensures { BitsKeepForm }
{
    instruction_laws();
}

/// Where a state stands under what is known, the chip takes a conditional jump or goes on behind it, the state that it comes to
/// stands under what is known on that way, and its accesses are shown.
pub fn jumps_do()
    ensures { JumpsDo }
{
    instruction_laws();
    bits_do();
    bits_keep_form();
    branch_laws();
}

/// What is known on each way of a conditional jump is in form.
pub fn jumps_keep_form()
    ensures { JumpsKeepForm }
{
    instruction_laws();
    bits_do();
    bits_keep_form();
    branch_laws();
}
