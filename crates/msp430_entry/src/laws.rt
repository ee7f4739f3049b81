//! What holds of the entry of an interrupt over what is known of a state.

ghost use Rattle.msp430_entry.specs.Laws.{InterruptLaws};

use msp430_alu::memory_laws;

/// The law of entries: each interrupt that comes in a single state is listed. The state that its handler begins with stands
/// under what `entered_known` says, over the state that it suspends. Each push and the edge are shown, and a push that hits
/// the program is at one of the addresses of its slot. What is said is in form.
pub fn interrupt_laws()
    ensures { InterruptLaws }
{
    memory_laws();
}
