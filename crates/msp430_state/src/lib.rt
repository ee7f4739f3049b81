//! What an analysis of the MSP430 knows of a state.
//!
//! A [`State`] has a set of values for SP and for each of R4 to R15, the bits of SR as far as they are known, the [`FlagFact`]
//! that a comparison left, cells of RAM over any representation of them, and the [`Ranges`](irq_frames::Ranges) of RAM that an interrupt's
//! handler may have touched. A value may remember how it came from the state that the interrupt suspended. Contracts see
//! one plain value, `Known` (`specs/Known.antt`), whatever represents the cells.
//!
//! `specs/Holding.antt` says when this stands for a state of the chip, `Covers`, and of its registers and RAM alone,
//! `HoldsOfParts`. `specs/Forms.antt` is the form of states and of their nodes.
//!
//! [`state_laws`] is a function that does nothing and gives the laws as one record (`specs/Laws.antt`):
//!
//! - Being within another is an order. Two states are within their join, within the first one widened by the second, and
//!   within the greatest.
//! - The first state and the greatest have the form, and joins and widenings keep it.
//! - What stands under a state stands under all that this is within, and each state behind a reset stands under the first one.
#![tactic(auto)]

mod fact;
mod laws;
mod state;
mod status;
mod words;

pub use fact::{FlagFact, is_fact_within};
pub use laws::state_laws;
pub use state::State;
pub use status::Status;
