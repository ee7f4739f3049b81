//! What holds of the entry of an interrupt over what is known of a state.

ghost use Rattle.mcs51_entry.specs.Laws.{InterruptLaws};

use mcs51_results::instruction_laws;

/// The law of entries: each interrupt that comes in a single state is listed. The state that its handler begins with stands
/// under what `entered_known` says, over the state that it suspends, and its pushes are shown. What is said is in form, and
/// so is the frame.
pub fn interrupt_laws()
    ensures { InterruptLaws }
{
    instruction_laws();
}
