//! The spaces of addresses.

/// A space of addresses.
#[derive(Clone, Copy, Debug, PartialEq, Eq, Hash)]
pub enum Space {
    /// The one memory of an MSP430.
    Mem,
    /// The internal RAM of an MCS-51.
    Ram,
    /// The special function registers of an MCS-51.
    Sfr,
    /// The external RAM of an MCS-51.
    Xram,
    /// The code memory of an MCS-51.
    Code,
}
