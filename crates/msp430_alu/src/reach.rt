//! Where operands may stand.

use msp430_decode::Register;
use value_set::Vs16;

/// Where an operand may stand.
#[derive(Clone, Copy, Debug, PartialEq, Eq)]
pub enum Reach {
    /// In a register.
    InRegister(Register),
    /// In memory, at one of some addresses.
    InMemory(Vs16),
    /// Nowhere: it is this number.
    Fixed(u16),
}
