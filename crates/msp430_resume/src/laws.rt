//! What holds where a suspended state goes on. Laws of returns call these.

ghost use Rattle.msp430_resume.specs.Laws.{ResumptionLaws};

use msp430_alu::memory_laws;

/// What a handler left stands, where it goes on, under what `resumed_known` says, with the state that was suspended before.
/// The stack pointer at which the interrupt came is one of those that are known there. What goes on is in form, and what
/// `resume` asks of cells holds of states in form.
pub fn resumption_laws()
    ensures { ResumptionLaws }
{
    memory_laws();
}
