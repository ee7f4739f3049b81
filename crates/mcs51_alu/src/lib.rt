//! What instructions that write the accumulator of the MCS-51 make of what is known of a state.
//!
//! - [`load`], [`load_immediate`] and [`count`]: MOV of an operand or a number, INC and DEC.
//! - [`accumulate`]: ADD, ADDC, SUBB, ORL, ANL or XRL of the accumulator and a byte. [`change`]: an operation on it alone.
//!
//! Behind a move of one byte of RAM, and ADD of it and of constants, the accumulator stays gathered from that byte
//! (`specs/LinearFacts.antt`). A write of the accumulator drops a fact of CY that names it, and an instruction that sets CY each
//! one.
//!
//! Each is exact by a formula of `specs/Accumulator.antt`. [`accumulators_hold`] says what holds of them: the state that the chip
//! comes to stands under what is said, and that is in form. [`accumulators_do`] says it of the instructions, whose accesses are
//! shown by [`show_source`].
#![tactic(auto)]

mod accumulator;
mod laws;
mod linear;

pub use accumulator::{accumulate, change, count, load, load_immediate, show_source};
pub use laws::{accumulators_do, accumulators_hold};
