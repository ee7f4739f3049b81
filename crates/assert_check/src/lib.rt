//! Assertions over a closed book: sentences that every run of a chip keeps, or the line of the report that breaks them.
//!
//! - `specs/Lines.antt` says which assertions a text has (`assertions_of`), or which of its lines is the first of no form.
//! - `specs/Assertions.antt` says when a step breaks an assertion (`breaks`), and which of them a book breaks
//!   (`broken_of`): those which some item of its works breaks, with some number of the item's set.
//!
//! Proved:
//!
//! - [`read_lines`] gives exactly the assertions of a text, or its first line that is of no form.
//! - [`decide`] gives exactly the assertions that a closed book breaks. Each set is decided by one or two cuts, so no number
//!   of it is listed.
//! - Nothing that the chip meets on any run breaks an assertion that it doesn't give, and no run leaves the model (`HoldsBut`
//!   of `specs/Holding.antt`). [`unnamed_assertions_hold`] is that law for any works that cover the runs.
//! - So where it gives none, all of them hold (`Holds`): [`unbroken_lists_hold`].
//! - [`idle_lines`] gives exactly the assertions on accesses to a space to which a closed book shows none, which nothing could
//!   break (`specs/Idle.antt`).
#![tactic(auto)]

mod assertion;
mod breaking;
mod deciding;
mod idle;
mod laws;
mod lines;
mod parsing;
mod reaching;

pub use assertion::Assertion;
pub use breaking::breaks;
pub use deciding::{Broken, decide};
pub use idle::idle_lines;
pub use laws::{unbroken_lists_hold, unnamed_assertions_hold};
pub use lines::{AssertError, MOST_BYTES, read_lines};
