//! What holds of cuts. Proofs about jumps call these.

ghost use Rattle.mcs51_chip.specs.Step.{holds};
ghost use Rattle.mcs51_branch.specs.Laws.{BitsHold, BranchLaws, JumpsHold};

use irq_frames::known_laws;

/// A state that stands under what is known in front of a jump stands under what is known on the way that the chip goes: by
/// its condition, behind CJNE with the CY that it writes, and DJNZ's lowered byte is one of its numbers there. What is known on
/// each way is in form. Of A or a byte of RAM any set may be known that has it, and so may what is left in a window where it
/// stands.
pub fn jumps_hold()
    ensures { JumpsHold }
{
    known_laws();
}

/// The same of a jump by a bit: whatever the byte may be read as, where the chip finds its bit so the way isn't left out.
pub fn bits_hold()
    ensures { BitsHold }
{
    known_laws();
}

/// All laws of ways, for proofs above.
pub fn branch_laws()
    ensures { BranchLaws }
{
    jumps_hold();
    bits_hold();
}
