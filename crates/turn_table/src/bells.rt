//! The bells at which seats that wait for their turn sleep.

use crossbeam_utils::sync::EventCount;
use std::array;

/// A bell for each ticket that is waited for: seats whose tickets are less than 16 apart sleep at different ones, so that
/// the end of a turn wakes the seat whose turn comes next, and no other.
#[derive(Drop)]
pub(crate) struct Bells {
    bells: [EventCount; 16],
}

impl Bells {
    pub(crate) fn new() -> Self {
        Bells {
            bells: array::from_fn(|_| EventCount::new()),
        }
    }

    /// The bell that rings when the turn of this ticket comes.
    pub(crate) fn of(&self, ticket: u64) -> &EventCount {
        &self.bells[(ticket % 16) as usize]
    }
}
