//! The MCS-51's instruction table: which bytes are which instruction (Intel, MCS-51 Programmer's Guide and Instruction
//! Set).
//!
//! An [`Instr`] says what an assembly programmer would write. `specs/Table.antt` is the opcode map: a row for each opcode
//! but A5h, which no instruction has, with the number of bytes and the instruction, by the bytes behind the opcode. `Row`
//! says that bytes are an instruction. What an image has at an address is in `specs/Standing.antt`: an instruction
//! `Stands` there, or the image `Lacks` a byte that is needed, or the opcode there is the excluded one. `Decodes` is the
//! one answer of the three. The same answer as a function that computes is `decoded` of `specs/Decoding.antt`, beside
//! `instr_of_bytes`, the instruction of some bytes. `specs/Encoding.antt` goes the other way, from an instruction to its
//! bytes by its fields, for all whose operands fit, by `specs/Fitting.antt`; `specs/Targets.antt` says where jumps and
//! calls go.
//!
//! Proved:
//!
//! - [`decode`] gives the answer at an address, and no other answer fits there. It names the first missing byte, and it
//!   says that an opcode is excluded whether or not bytes follow it.
//! - [`encode`] gives the bytes of an instruction, and so those that were decoded. [`from_bytes`] gives the instruction
//!   whose bytes these are.
//! - [`Instr::length`] is the number of these bytes. [`Instr::target`] says where a jump or a call goes.
//! - [`one_instruction`], [`one_row_an_opcode`] and [`one_of_three`] are laws of the table: bytes are at most one
//!   instruction, and that one's bytes; each opcode but one has instructions, all of one length; each address of an image
//!   has exactly one of the three answers. [`decoding_laws`] and [`bytes_of_one_instruction`] say that the two functions
//!   are what the table says.
//!
//! No call takes memory.
#![tactic(auto)]

mod decoding;
mod encoding;
mod instr;
mod laws;
mod refusal;
mod rows;
mod targets;

pub use decoding::{decode, from_bytes};
pub use encoding::{encode, number_of_pointer, number_of_register};
pub use image::Image;
pub use instr::{
    AccumulatorOperation, BitOperation, BitTest, CarryByBit, CarryOperation, CodeBase, Comparison,
    Condition, Counter, External, Instr, Logic, Mask, Memory, Operation, Place, Pointer, Register,
    Source, Working,
};
pub use laws::{
    bytes_of_one_instruction, decoding_laws, one_instruction, one_of_three, one_row_an_opcode,
};
pub use refusal::NoInstr;
