//! The text of the MSP430's instructions, in the notation of SLAU049, MSP430x1xx Family User's Guide, chapter 3.
//!
//! [`text`] gives exactly `text_of` of `specs/Text.antt`, in at most 40 bytes and without memory. The longest text is
//! that of a byte form with two indexed operands, as `SUBC.B 0004h(R15),0004h(R14)`.
#![tactic(auto)]

mod names;
mod parts;
mod whole;

pub use whole::text;
