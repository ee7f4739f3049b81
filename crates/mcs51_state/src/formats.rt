//! What holds of formats. Laws of instructions call these.

ghost use Rattle.mcs51_chip.specs.Memory.{reads, write, writes};
ghost use Rattle.mcs51_state.specs.OperandLaws.{AccessesAddUp, FormatsDo};

use crate::laws::accesses_are_shown;
use mcs51_chip::formats_lead;

/// Accesses that are shown one by one are shown together. A read, a write, and both of one byte are shown.
pub fn accesses_add_up()
    ensures { AccessesAddUp }
{
    accesses_are_shown();
}

/// A format does what is said of it, where each number that the chip may read leads there: one that touches no memory, that
/// reads a byte, writes one, reads and writes one, and moves one. A write keeps PC.
pub fn formats_do()
    ensures { FormatsDo }
{
    accesses_are_shown();
    formats_lead();
}
