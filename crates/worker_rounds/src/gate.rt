//! The gate that may watch the workers.

/// What is told of each worker's turns.
pub trait Gate {
    /// A unit of this seat was claimed, and its work comes next.
    fn before(&self, seat: u32);

    /// The work of this seat was posted.
    fn after(&self, seat: u32);

    /// So many nodes are in the book, and at most so many units wait to be claimed. It is told where one worker is alone,
    /// behind each of its posts.
    fn told(&self, _nodes: usize, _waiting: usize) {}
}

/// A gate that looks away.
#[derive(Clone, Copy, Debug, PartialEq, Eq)]
pub struct NoGate;

impl Gate for NoGate {
    fn before(&self, _seat: u32) {}

    fn after(&self, _seat: u32) {}
}
