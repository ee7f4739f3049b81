//! The MSP430 as it runs: single states, and what one step makes of them (SLAU049, MSP430x1xx Family User's Guide,
//! chapters 2 and 3).
//!
//! What the chip leaves free, as the byte that a peripheral reads as, is asked from a list of choices
//! (`choosing/specs/Asking.antt`), and `specs/Step.antt` says what a step makes of a state by these choices.
//!
//! Of all states and choices:
//!
//! - [`step_laws`]: what a step leads to, format by format, without choices (`specs/Leading.antt`). Each list of choices has at
//!   most one front with a step, and steps keep the form of states.
//! - [`steps_are_taken`]: seven choices are enough for a step, and choices of 16 bits take each step.
//! - [`a_reset_exists`]: a device with a program has a state behind a reset.
//! - [`the_table_decides`]: the instruction that stands at PC by the instruction table is the one that runs.
//! - [`place_laws`]: a register is PC, SP, SR, R3 or one of R4 to R15, and accesses are made in memory.
#![tactic(auto)]

mod device;
mod laws;
mod place;
mod ram;
mod state;

pub use device::Device;
pub use laws::{a_reset_exists, place_laws, step_laws, steps_are_taken, the_table_decides};
pub use place::{Flags, Place};
pub use ram::Ram;
pub use state::{ChipState, Wild};
