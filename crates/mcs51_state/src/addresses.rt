//! Where an operand may stand.

use value_set::Vs8;

/// The addresses that an operand may have.
#[derive(Clone, Copy, Debug, PartialEq, Eq)]
pub enum Addresses {
    /// One of these bytes of RAM.
    InRam(Vs8),
    /// The register at this address, from 80h to FFh.
    InSfr(u8),
}
