//! The MSP430's instruction table: which bytes are which instruction (SLAU049, MSP430x1xx Family User's Guide,
//! chapter 3, "RISC 16-Bit CPU").
//!
//! An [`Instr`] says what an assembly programmer would write. `specs/Table.antt` is the table: `Row` says that bytes are
//! an instruction, by the fields of its first word and its extension words, with one case for each form. It is said of
//! numbers, from the instruction to the bytes; the decoder goes the other way, from bit fields. What an image has at an
//! address is in `specs/Standing.antt`: an instruction `Stands` there, or the image `Lacks` a byte that is needed, or the
//! first word `IsExcluded`, since no instruction begins so. `Decodes` is the one answer of the three. The same answer as a
//! function that computes is `decoded` of `specs/Decoding.antt`, beside `instr_of_bytes`, the instruction of some bytes.
//!
//! Proved:
//!
//! - [`decode`] gives the answer at an address, and no other answer fits there. It names the first missing byte, and it
//!   says that a first word is excluded whether or not bytes follow it.
//! - [`encode`] gives the bytes of an instruction, and so those that were decoded. [`from_bytes`] gives the instruction
//!   whose bytes these are.
//! - [`Instr::length`] is the number of these bytes. [`Instr::jump_target`] says where a jump goes.
//! - [`one_instruction`], [`one_of_three`] and [`excluded_words`] are laws of the table: bytes are at most one
//!   instruction, each address of an image has exactly one of the three answers, and `specs/Excluded.antt` lists exactly
//!   the first words that no instruction begins with. [`decoding_laws`] and [`bytes_of_one_instruction`] say that the two
//!   functions are what the table says.
//!
//! No call takes memory.
#![tactic(auto)]

mod codes;
mod decoding;
mod encoding;
mod fields;
mod instr;
mod laws;
mod operands;
mod refusal;

pub use decoding::{decode, from_bytes};
pub use encoding::{encode, offset_target};
pub use image::Image;
pub use instr::{
    Condition, Constant, Destination, Instr, Operation, Register, SingleOperation, Source, Width,
};
pub use laws::{
    bytes_of_one_instruction, decoding_laws, excluded_words, one_instruction, one_of_three,
};
pub use refusal::NoInstr;
