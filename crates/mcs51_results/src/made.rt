//! What instructions work on, and what they give.

use entry_value::Byte;
use mcs51_state::Status;
use value_set::Vs8;

/// The second operand of an instruction.
#[derive(Clone, Copy, Debug, PartialEq, Eq)]
pub enum Operand {
    /// `#d`.
    Constant(u8),
    /// A byte of a register or of memory, which is one of these.
    Among(Vs8),
}

/// The accumulator and PSW.
#[derive(Clone, Copy, Debug, PartialEq, Eq)]
pub struct Made {
    pub a: Byte,
    pub psw: Status,
}

/// The accumulator, B and PSW.
#[derive(Clone, Copy, Debug, PartialEq, Eq)]
pub struct MadePair {
    pub a: Byte,
    pub b: Byte,
    pub psw: Status,
}
