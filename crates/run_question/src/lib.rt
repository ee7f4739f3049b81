//! What a run asks where its script ends: the step, the instruction that stands there, and the question that the next number
//! of the script would answer.
//!
//! The run is done once more by the chip's emulator, up to the step that lacks a choice. That step is then done with zeros
//! behind the choices that are left, and what it accesses tells which bytes it reads that nothing holds. The other questions
//! of an instruction are told by the instruction. Nothing is proved of the answer, which is a word for a person: it is
//! compared with the emulators in rows.
#![tactic(auto)]

mod mcs51;
mod msp430;
mod question;
mod reads;

pub use mcs51::mcs51_asks;
pub use msp430::msp430_asks;
pub use question::{Asked, Question};
