//! What holds of facts and of cuts. Proofs about jumps call these.

ghost use Rattle.msp430_branch.specs.Laws.{CutsHold, FactsHold};

use irq_frames::known_laws;
use msp430_chip::place_laws;

/// Where a jump is taken, or isn't, by the flags of a state that stands under what is known, that outcome is known, and the
/// state stands under what is known there. So do registers and RAM alone. What is known on an outcome is in form, and says the
/// same of interrupts. Of one of R4 to R15 any set may be known that has its number.
pub fn cuts_hold()
    ensures { CutsHold }
{
    known_laws();
}

/// Behind each step of an instruction with two operands, where the registers and RAM that it leaves stand under what is
/// known, its fact holds of the registers. A fact is in form.
pub fn facts_hold()
    ensures { FactsHold }
{
    known_laws();
    place_laws();
}
