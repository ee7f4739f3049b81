//! What the report of an analysis says of every run, and its printing.
//!
//! Proved:
//!
//! - The report of a finished book without opens says CLOSED, has a line for whatever the chip meets on any run, and no run
//!   leaves the model; so does that of any closed table's works ([`closed_works_cover_runs`]). That of a book with opens says
//!   OPEN, and shows each of them (`specs/Promise.antt`).
//! - Where stacks grow one way, the stack of each run stays within the stack pointer that the `T` line of such a report names,
//!   but at the sites that it counts ([`closed_reports_bound_stacks`], [`closed_works_bound_stacks`]).
//! - [`print_book`] and [`print_closed`] write exactly the report of a book and of a closed book.
#![tactic(auto)]

mod laws;
mod print;

pub use laws::{
    closed_reports_bound_stacks, closed_reports_cover_runs, closed_works_bound_stacks,
    closed_works_cover_runs, open_reports_show_sites,
};
pub use print::{print_book, print_closed};
pub use streams::PrintError;
