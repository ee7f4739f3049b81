//! Why no instruction stands at an address.

/// Why no instruction stands at an address.
#[derive(Clone, Copy, Debug, PartialEq, Eq)]
pub enum NoInstr {
    /// The image lacks the byte at this address, which is needed, and none below it that is needed.
    OffImage(u16),
    /// The opcode is A5h, which is no instruction's.
    Excluded,
}
