//! The report of an analysis as bytes: a head, the lines of the last works in the order of their bytes, and a summary. Those of
//! items stand below, in `item_lines`. What a report says of every run of the chip stands above, in `report_text`.
//!
//! Proved:
//!
//! - [`report_of`] gives exactly the report of a book (`specs/Report.antt`), and also what a summary tells of it: the deepest
//!   stack pointer, and how many lines there are of each kind. [`closed_report_of`] gives exactly that of a closed book.
//! - [`open_line`] gives exactly the line of an open site (`specs/Opens.antt`).
//! - The report of works says whether they are closed, and has the line of each item and each open site of theirs
//!   ([`reports_show_works`]). That of a finished book has the line of each item of its table ([`reports_show_tables`]).
//! - [`least_number`] is one of a set's numbers, and none is less; [`greatest_number`] is one, and none is greater.
//! - The stack pointer of the `T` line is a number of an `S` line, and no number of an `S` line is deeper but where the line
//!   tells all numbers and is counted ([`reports_tell_stacks`], `specs/StackLines.antt`).
//! - Closed books of one table have the same report, in whatever order their nodes and works stand, where the stacks of the
//!   chip grow one way: by words or by bytes ([`closed_reports_are_of_tables`]).
#![tactic(auto)]

mod closing;
mod deepest;
mod laws;
mod lines;
mod opens;
mod report;

pub use closing::closed_books_are_told;
pub use deepest::{Deepest, greatest_number, least_number};
pub use laws::{
    closed_reports_are_of_tables, closed_reports_tell_stacks, reports_have_no_order,
    reports_show_tables, reports_show_works, reports_tell_stacks,
};
pub use lines::Counts;
pub use opens::open_line;
pub use report::{Report, closed_report_of, head_line, push_summary, report_of};
