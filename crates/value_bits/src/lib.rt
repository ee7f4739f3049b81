//! Known bits of sets of 8-bit and 16-bit numbers, and bitwise and decimal operations on such sets, as an analysis of
//! machine code does them.
//!
//! The sets are those of `value_set`. [`w16`] works on words and [`w8`] on bytes. What an operation makes of numbers
//! stands in `specs/Numbers.antt`, as the manuals of the two chips say it: SLAU049, chapter 3, of the MSP430, and the
//! MCS-51 Programmer's Guide and Instruction Set. What is known of bits stands in `specs/Bits.antt`, and which set each
//! call gives in `specs/Sets.antt`:
//!
//! - Of at most 256 combinations of members, with an unknown carry counted as two, a call gathers all results.
//! - Of more, a bit of the result is known where the known bits of the operands decide it, and the result is the set of
//!   the numbers with such bits.
//! - A flag over at most 256 combinations is known where all agree, and else unknown. Up to four flags are told by one
//!   walk, which ends where none can be known.
//! - A decimal operation of more than 256 combinations gives any number, and so does a decimal sum where a member has a
//!   digit above 9.
//!
//! Proved of each call: it gives just that set, the set has the result of each combination of members, and of operands
//! of one number it is that one result. No call takes memory, and each takes at most a fixed number of steps.
#![tactic(auto)]

mod all_flags;
pub mod decimal;
mod flags;
mod forming;
mod formulas;
mod halves;
mod knowing;
mod laws;
mod listing;
mod making;
mod operations;
mod order;
mod results;
mod tri;
pub mod w16;
pub mod w8;

pub use all_flags::{AllFlags, FourFlags, FourKnown};
pub use flags::Flag;
pub use laws::bit_laws;
pub use tri::{Lowest, Top, Tri, tri_and, tri_not, tri_or, tri_xor};
