//! Where operands stand, and the flags of results.

use msp430_decode::Register;

/// Where an operand stands.
#[derive(Clone, Copy, Debug, PartialEq, Eq)]
pub enum Place {
    /// In a register.
    InRegister(Register),
    /// In memory, at an address.
    InMemory(u16),
    /// Nowhere: it is this number.
    Fixed(u16),
}

/// The flags that a result sets: the bits 0, 1, 2 and 8 of SR.
#[derive(Clone, Copy, Debug, PartialEq, Eq)]
pub struct Flags {
    pub carry: bool,
    pub zero: bool,
    pub negative: bool,
    pub overflow: bool,
}
