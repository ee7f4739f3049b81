//! What is known of a RAM, as a list of cells in ascending order of their places.
//!
//! [`CellList`] is [`Cells`] over the one list of the definitions. A place is found by binary search, and joins, widenings
//! and comparisons go once over both lists.
#![tactic(auto)]

mod finding;
mod joining;
mod list;
mod reading;
mod writing;

pub use list::CellList;
