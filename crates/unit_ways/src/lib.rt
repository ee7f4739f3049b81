//! Where a unit of work goes on: its ways, the edges and the posts that are made of them, and what it leaves open. Nothing here
//! names a register or a format: what is known on a way is whatever a chip knows ([`Site`]).
//!
//! - [`add_each`] adds a way to each address of a set, from the least one to the greatest, [`add_either`] the two ways of a
//!   jump, the lesser address first. Both are exact by `specs/Ways.antt`.
//! - [`leave`] adds what a return from an interrupt leaves at the exit of its frame, [`leave_open`] the open of a site with more
//!   targets than are followed.
//!
//! The law is a function that does nothing: [`ways_hold`] says which ways there are, and that they ascend.
#![tactic(auto)]

mod laws;
mod site;
mod targets;
mod ways;

pub use laws::ways_hold;
pub use site::Site;
pub use targets::are_too_many;
pub use ways::{Ways, add_each, add_either, leave, leave_open};
