//! Single states.

/// A state of the chip.
#[derive(Clone, Debug, PartialEq, Eq, Drop)]
pub struct ChipState {
    pub pc: u16,
    /// The accumulator.
    pub a: u8,
    pub b: u8,
    /// The stack pointer: where the last byte was pushed.
    pub sp: u8,
    /// The low byte of DPTR.
    pub dpl: u8,
    /// The high byte of DPTR.
    pub dph: u8,
    /// The bits 7 to 2 of PSW: CY, AC, F0, RS1, RS0 and OV. Bit 1 isn't held, and bit 0 is the parity of A.
    pub psw: u8,
    /// IE but for its bit 6, which isn't held.
    pub ie: u8,
    /// The bits 5 to 0 of IP; the others aren't held.
    pub ip: u8,
    /// The bytes of RAM.
    pub ram: [u8; 256],
    /// An interrupt of the low level is in service.
    pub serves_low: bool,
    /// An interrupt of the high level is in service.
    pub serves_high: bool,
}
