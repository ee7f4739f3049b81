//! The text of the MCS-51's instructions, in the notation of Intel's MCS-51 Programmer's Guide and Instruction Set.
//!
//! [`text`] gives exactly `text_of` of `specs/Text.antt`, in at most 40 bytes and without memory. The longest text is that
//! of a comparison with a working register, as `CJNE @R0,#05h,0010h`.
#![tactic(auto)]

mod names;
mod parts;
mod whole;

pub use whole::text;
