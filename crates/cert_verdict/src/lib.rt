//! The verdict on a certificate: the report of its table, where that is closed, or a line that tells why it is refused.
//!
//! Proved:
//!
//! - [`verdict_on`] tells exactly what `specs/Verdict.antt` says of a text, to the byte.
//! - A text has one verdict ([`verdicts_are_one`]), and the certificate of a closed table has that of one
//!   ([`closed_tables_have_their_report`]).
//! - The certificate of a closed book gives the book's own report, where the stacks of the chip grow one way
//!   ([`own_certificates_are_closed`]).
//! - The report that is told of a closed table is that of a closed book ([`closed_verdicts_tell_closed_books`]).
#![tactic(auto)]

mod laws;
mod lines;
mod verdict;

pub use laws::{
    closed_tables_have_their_report, closed_verdicts_tell_closed_books,
    own_certificates_are_closed, verdicts_are_one,
};
pub use verdict::{Verdict, verdict_on};
