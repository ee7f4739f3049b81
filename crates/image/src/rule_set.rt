//! What a chip asks of an image.

use crate::ram_range::RamRange;

/// The chip's rules for an image.
#[derive(Clone, Copy, Debug, PartialEq, Eq)]
pub enum Rules {
    /// Those of an MSP430 with this RAM: no byte may stand below 0200h, in RAM or in its mirror, and both bytes of the reset
    /// vector must be there.
    Msp430(RamRange),
    /// Any image will do.
    Mcs51,
}
