//! How much an analysis follows, whatever the chip.
#![tactic(auto)]

mod limits;

pub use limits::Limits;
