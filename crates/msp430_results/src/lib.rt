//! What the operations of the MSP430 make of sets of values, and what is known of the flags that they set.
//!
//! [`double_made`] is an operation with two operands, [`single_made`] one with one operand, and [`twice_made`] the sum of a
//! register and itself: each exact by a formula of `specs`, which has flags as [`FlagBits`]. [`kept_word`] is a word as a
//! width has it.
//!
//! [`operations_hold`] says what holds of the formulas: where the operands' sets have the values, the set of results has the
//! result that the chip may make, and what is known of the flags holds of those that it sets. [`instruction_laws`] gives this
//! with the laws of what is known, of registers and of accesses.
#![tactic(auto)]

mod carrying;
mod decimal;
mod flag_bits;
mod flags;
mod laws;
mod numbers;
mod results;
mod sets;

pub use flag_bits::FlagBits;
pub use laws::{instruction_laws, operations_hold};
pub use results::{double_made, kept_word, single_made, twice_made};
