//! What a chip does, in machines and their runs, and the laws that tie its analysis to it.
//!
//! Of a machine and a promise, by which some of its steps are kept (`specs/Kept.antt`):
//!
//! - [`runs_are_steps`]: its runs by their number of steps, and by what each step did.
//! - [`runs_up_to`]: each of its runs up to the first step that isn't kept is one of the machine of kept steps, and it has no
//!   others.
//! - [`all_runs_are_kept`]: where every step is kept, both machines have the same runs.
#![tactic(auto)]

mod lawful;
mod laws;
mod running;

pub use chip_analysis::{Chip, OrderlyChip, Work};
pub use lawful::LawfulChip;
pub use laws::{all_runs_are_kept, runs_are_steps, runs_up_to};
pub use running::RunningChip;
