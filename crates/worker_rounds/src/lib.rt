//! The analysis of a program: units are claimed from a book, worked on and posted, until it is finished.
//!
//! Proved:
//!
//! - [`fixpoint_alone`] returns, and gives a finished book of the chip's program. Its journal is legal, and one worker made
//!   it: each claim is followed at once by its post. There is one such journal alone ([`turns_are_one`]).
//!   [`watched_fixpoint`] does so too, and tells a gate of each turn.
#![tactic(auto)]

mod fixpoint;
mod gate;
mod laws;

pub use fixpoint::{fixpoint_alone, watched_fixpoint};
pub use gate::{Gate, NoGate};
pub use laws::turns_are_one;
