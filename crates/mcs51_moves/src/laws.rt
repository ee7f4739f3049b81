//! What holds of instructions that write a byte of memory.

ghost use Rattle.mcs51_moves.specs.Laws.{MovesDo, MovesKeepForm};

use mcs51_results::instruction_laws;

/// The instruction of the chip does what is said of it, whatever number it reads: its accesses are shown, it goes on behind
/// itself, and the state behind it stands under what is known there.
pub fn moves_do()
    ensures { MovesDo }
{
    instruction_laws();
}

/// What is said of the state behind the instruction is in form.
pub fn moves_keep_form()
    ensures { MovesKeepForm }
{
    instruction_laws();
}
