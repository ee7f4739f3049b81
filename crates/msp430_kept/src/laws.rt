//! What holds in front of an instruction. Proofs about works call this.

ghost use Rattle.msp430_kept.specs.Laws.{FrontLaws};

use irq_frames::known_laws;
use msp430_branch::cuts_hold;
use msp430_chip::place_laws;

/// What is known in front of an instruction is in form, with the same of SP, SR and interrupts. Where a step of the instruction
/// keeps the promises, the state in front of it stands under what is known there. Without promises each step keeps them.
pub fn front_laws()
    ensures { FrontLaws }
{
    known_laws();
    cuts_hold();
    place_laws();
}
