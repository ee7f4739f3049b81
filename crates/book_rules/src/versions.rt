//! Versions of inputs.

/// The versions of a unit's inputs: the rises of its node, and those of its exit or 0 without one.
#[derive(Clone, Copy, Debug, PartialEq, Eq)]
pub struct Versions {
    pub at: u32,
    pub exit: u32,
}
