//! What holds in front of instructions.

ghost use Rattle.mcs51_kept.specs.Laws.{FrontLaws};

use irq_frames::known_laws;
use mcs51_branch::jumps_hold;
use mcs51_chip::formats_lead;
use mcs51_state::operand_laws;

/// A state from which an instruction makes a step that keeps promises stands under what is known in front of it. That is in form,
/// and differs from what was known in cells of RAM alone. Without promises each step keeps them.
pub fn front_laws()
    ensures { FrontLaws }
{
    known_laws();
    operand_laws();
    formats_lead();
    jumps_hold();
}
