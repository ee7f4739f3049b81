//! What an analysis makes of a chip's program, in abstract states: its start, its works with the sites that they leave open, their
//! order, and closed tables. It knows nothing of what the chip does.
#![tactic(auto)]

mod cause;
mod chip;
mod laws;
mod orderly;

pub use cause::Cause;
pub use chip::{Chip, Work};
pub use laws::equal_causes_are_one;
pub use orderly::OrderlyChip;
