//! The chips.

/// A chip whose images are analysed.
#[derive(Clone, Copy, Debug, PartialEq, Eq)]
pub enum ChipName {
    /// TI's MSP430.
    Msp430,
    /// Intel's MCS-51.
    Mcs51,
}
