//! The analysis of a chip, as far as it is the same for every chip: the works of its units, made of what the chip makes of an
//! instruction and of an interrupt that comes ([`Flow`]). Nothing here names a register, a format or a vector.
//!
//! - [`work`] is the work of a unit, exactly by `specs/Works.antt`: of a location, where its interrupts may come and its
//!   instruction goes on, and of a return from an interrupt.
//! - [`Kept`] is what is known of a state, as it is handed on and kept.
//!
//! Which limit the cause of an open names stands in `specs/Causes.antt`, a row a cause. Which form the posts of such works have,
//! and which opens tell why a step leaves the model, stands in `specs/Posts.antt` and `specs/Opens.antt`, for the laws of the
//! chips; where steps land among the posts stands above, in `flow_laws`.
#![tactic(auto)]

mod calls;
mod entries;
mod flow;
mod going;
mod kept;
mod location;
mod nodes;
mod returning;
mod works;

pub use calls::CallEffect;
pub use entries::add_handler;
pub use flow::Flow;
pub use going::{Followed, Onward};
pub use kept::Kept;
pub use nodes::{frame_of, start_node};
pub use works::{add_open, work};
