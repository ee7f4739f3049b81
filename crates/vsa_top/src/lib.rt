//! The top call: from words and an input to a report, what it breaks of assertions, the verdict on a certificate, a disassembly
//! or a trace.
#![tactic(auto)]

mod alone;
mod asked;
mod asserting;
mod checking;
mod headline;
mod input;
mod laws;
mod made;
mod mcs51;
mod msp430;
mod outcome;
mod own;
mod reply;
mod script;
mod second;
mod summary;
mod top;

pub use msp430::Msp430Code;
pub use outcome::{Outcome, Status};
pub use round_core::Event;
pub use top::vsa;
pub use worker_rounds::{Gate, NoGate};
