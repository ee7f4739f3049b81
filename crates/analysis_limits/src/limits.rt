//! Limits.

/// How much an analysis follows.
#[derive(Clone, Copy, Debug, PartialEq, Eq)]
pub struct Limits {
    /// How many of the last call sites a location keeps, at most 8.
    pub calls: u8,
    /// To how many targets of one instruction it goes on; where there are more, the site is left open.
    pub targets: u32,
}

impl Limits {
    /// Six call sites and 64 targets.
    pub const USUAL: Limits = Limits {
        calls: 6,
        targets: 64,
    };
}
