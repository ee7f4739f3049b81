//! The MCS-51 as it runs: single states, and what one step makes of them (Intel, MCS-51 Programmer's Guide and Instruction
//! Set), as an 8052: 256 bytes of RAM, and the interrupt of timer 2.
//!
//! What the chip leaves free, as the byte that a port reads as, is asked from a list of choices
//! (`choosing/specs/Asking.antt`). What an instruction does stands in `specs/Step.antt`, one line an operation, by the
//! kinds of operands; `specs/State.antt` is a state, `specs/Registers.antt` and `specs/Memory.antt` are its places,
//! `specs/Arithmetic.antt` is results and flags, and `specs/Interrupts.antt` is which interrupt may come.
//!
//! [`direct_address`], [`bit_address`] and [`sfr_at`] find bytes, bits and registers by their addresses.
//!
//! Of all states and choices:
//!
//! - [`step_laws`]: what a step leads to, without choices (`specs/Leading.antt`). Each list of choices has at most one front
//!   with a step, and steps keep the form of states.
//! - [`steps_are_taken`]: three choices are enough for a step, and choices of 16 bits take each step.
//! - [`a_reset_exists`]: there is a state behind a reset.
//! - [`the_table_decides`]: the instruction that stands at PC by the instruction table is the one that runs.
//! - [`formats_lead`]: what the formats of instructions lead to, without choices.
#![tactic(auto)]

mod finding;
mod laws;
mod place;
mod state;

pub use finding::{bit_address, direct_address, sfr_at};
pub use laws::{a_reset_exists, formats_lead, step_laws, steps_are_taken, the_table_decides};
pub use place::{Access, Address, Sfr};
pub use state::ChipState;
