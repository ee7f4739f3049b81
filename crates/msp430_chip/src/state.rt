//! Single states.

use crate::ram::Ram;
use msp430_decode::NoInstr;

/// A state of the chip.
#[derive(Drop)]
pub struct ChipState {
    /// PC, SP, SR with its bits 8 to 0, R3, which holds nothing, and R4 to R15.
    pub registers: [u16; 16],
    /// The bytes of RAM, from its lowest address up.
    pub ram: Ram,
    /// Whether an interrupt may still come behind an instruction that forbade it.
    pub late: bool,
}

/// Why a state leaves what the model says.
#[derive(Clone, Copy, Debug, PartialEq, Eq)]
pub enum Wild {
    /// An instruction is to run where none stands.
    NoInstr(NoInstr),
    /// The store of an instruction writes the program, and this is the lowest byte of it that is written.
    Store(u16),
    /// The entry of an interrupt pushes over the program, and this is the lowest byte of it that the first such push writes.
    Push(u16),
}
