//! Windows on the circle of words or of bytes.

/// The numbers that stand less than a length above a low end, round the circle.
#[derive(Clone, Copy, Debug, PartialEq, Eq)]
pub struct Window {
    /// The first number.
    pub low: u16,
    /// How many numbers there are.
    pub len: u32,
}
