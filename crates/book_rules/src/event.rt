//! The events of a book.

use call_context::Unit;

/// One event of a book, by the seat of who made it.
#[derive(Clone, Copy, Debug, PartialEq, Eq)]
pub enum Event {
    /// A unit was taken out.
    Claim { seat: u32, unit: Unit },
    /// The work of a unit came in.
    Post { seat: u32, unit: Unit },
    /// A unit was put back without work.
    GiveBack { seat: u32, unit: Unit },
}
