//! What a choice answers.

use arrayvec::{ArrayString, ArrayVec};
use chip_numbers::Space;

/// A question of a step.
#[derive(Drop)]
pub enum Question {
    /// Which interrupt comes. Option 0 is none, and the next ones are those that may come: on the MSP430 told by the addresses
    /// of their vectors, on the MCS-51 by those of their handlers.
    Interrupt(ArrayVec<u16, 14>),
    /// What a byte reads as that nothing holds.
    Byte { space: Space, at: u16 },
    /// Whether PC as a source is the address of the instruction plus 2, or plus 4.
    Counter,
    /// Whether PUSH or CALL forms its operand before SP is lowered, or behind that.
    PushedOperand,
    /// The bits 9 to 15 of SR.
    StatusBits,
    /// SR behind an instruction that sets flags and has SR as its destination.
    Status,
    /// The high byte of what PUSH.B pushes.
    HighByte,
    /// The result of DADD with a digit above 9, which has so many values.
    Decimal { values: u32 },
    /// C, Z, N and V behind such a DADD, from the lowest bit up.
    Flags,
    /// V behind RRC and DADD.
    Overflow,
    /// What a special function register reads as in the bits that it doesn't hold, which have so many values.
    OpenBits { at: u16, values: u32 },
    /// The high byte of the address of MOVX by R0 or R1.
    HighAddress,
    /// Whether PUSH of SP stores SP as it was, or as it is raised.
    PushedPointer,
    /// Whether POP of SP leaves the byte that was read, or one less.
    PoppedPointer,
    /// A behind a division by 0.
    Quotient,
    /// B behind a division by 0.
    Remainder,
}

impl Question {
    /// How many options it has.
    pub fn options(&self) -> u32 {
        match self {
            Question::Interrupt(sources) => 1 + sources.len() as u32,
            Question::Byte { .. }
            | Question::HighByte
            | Question::HighAddress
            | Question::Quotient
            | Question::Remainder => 256,
            Question::Counter
            | Question::PushedOperand
            | Question::Overflow
            | Question::PushedPointer
            | Question::PoppedPointer => 2,
            Question::StatusBits => 128,
            Question::Status => 512,
            Question::Flags => 16,
            Question::Decimal { values } | Question::OpenBits { values, .. } => *values,
        }
    }
}

/// Where a run asks what its script doesn't answer.
#[derive(Drop)]
pub struct Asked {
    /// The number of the step, from 1 on.
    pub step: u32,
    /// The address of the next instruction, and its text; an empty one where none stands there.
    pub pc: u16,
    pub instr: ArrayString<40>,
    /// What is asked, where that can be told: the step may leave the model by the numbers that are tried.
    pub question: Option<Question>,
}
