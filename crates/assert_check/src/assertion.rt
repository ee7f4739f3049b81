//! Assertions.

use chip_numbers::Space;

/// What is asserted of every step of a chip. Ranges go from their first number to their last one.
#[derive(Clone, Copy, Debug, PartialEq, Eq)]
pub enum Assertion {
    /// No instruction runs at an address from `lo` to `hi`.
    NoExec {
        lo: u16,
        hi: u16,
    },
    /// No byte of the space from `lo` to `hi` is read.
    NoRead {
        space: Space,
        lo: u16,
        hi: u16,
    },
    /// No byte of the space from `lo` to `hi` is written.
    NoWrite {
        space: Space,
        lo: u16,
        hi: u16,
    },
    /// Before each step at an address from `from` to `to` the stack pointer is from `lo` to `hi`.
    Stack {
        from: u16,
        to: u16,
        lo: u16,
        hi: u16,
    },
}
