//! What holds of instructions that reach other memories or write two registers.

ghost use Rattle.mcs51_memories.specs.Laws.{MemoriesDo, MemoriesKeepForm};

use mcs51_results::instruction_laws;

/// PUSH, POP, MOV and INC of DPTR, MUL, DIV, MOVC and MOVX do what is said, whatever number the chip reads. An image has bytes.
pub fn memories_do()
    ensures { MemoriesDo }
{
    instruction_laws();
}

/// What is said behind such an instruction is in form. Behind MOVX to memory it is what was said before.
pub fn memories_keep_form()
    ensures { MemoriesKeepForm }
{
    instruction_laws();
}
