//! The trace of a run along a script of choices, for any machine that steps.
//!
//! Proved: [`trace_of`] gives exactly the text and the end that `specs/Trace.antt` says, by the chip's step.
#![tactic(auto)]

mod emulator;
mod trace;

pub use emulator::{Emulator, Ran};
pub use trace::{End, Trace, trace_of};
