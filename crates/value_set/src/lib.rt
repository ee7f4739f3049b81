//! Sets of 8-bit and of 16-bit numbers, as an analysis of machine code holds them: short lists, and runs with a stride.
#![tactic(auto)]

mod bytes;
mod circle;
mod collecting;
mod combining;
mod cutting;
mod divisor;
mod ends;
mod few;
mod form;
mod gap;
mod gathering;
mod joining;
mod laws;
mod long;
mod member;
mod merging;
mod number;
pub mod sets;
mod summing;
mod widening;
mod widths;
mod words;

pub use bytes::Vs8;
pub use combining::Operation;
pub use few::Few;
pub use form::{Form, Progression};
pub use laws::{members_are_below, set_laws, sets_have_members};
pub use number::Number;
pub use words::Vs16;
