//! What holds of what instructions make of what is known of a state.

ghost use Rattle.msp430_alu.specs.Laws.{DoublesHold, MemoryLaws, PushesHold, SinglesHold, WordsHold};

use irq_frames::known_laws;
use msp430_results::instruction_laws;

/// The law of instructions with two operands, but for those that write SR: a state that stands under what is known may only
/// lead to one that stands under what `double_worked` says, at one of its next addresses. Its items show each access, and a
/// store that hits the program is one of its store's addresses. What it says is in form, and the next addresses are even where the one behind is.
pub fn doubles_hold()
    ensures { DoublesHold }
{
    instruction_laws();
}

/// The same of instructions with one operand, but for those that write SR: `single_worked`.
pub fn singles_hold()
    ensures { SinglesHold }
{
    instruction_laws();
}

/// The same of PUSH and CALL: `push_worked`.
pub fn pushes_hold()
    ensures { PushesHold }
{
    instruction_laws();
}

/// The law of words in memory, and of SR as a word. An access at one of some addresses is made at one of where they are
/// located. What is known behind a store of a word there holds behind it, and a word that may be read holds of what is read
/// there. SR's word holds whatever its bits 9 to 15 are.
pub fn words_in_memory()
    ensures { WordsHold }
{
    instruction_laws();
}

/// All laws of what is known, and of words in memory, for proofs above.
pub fn memory_laws()
    ensures { MemoryLaws }
{
    known_laws();
    words_in_memory();
}
