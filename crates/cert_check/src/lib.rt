//! The checker of certificates: its yes says that the table is closed, and so that everything the chip meets in any run is
//! shown. Whoever made the certificate isn't trusted.
//!
//! Proved:
//!
//! - [`check`] gives the closed book of a table that has no refusal, and else the first one in the order of
//!   `specs/Refusal.antt`. Any call may be refused memory.
//! - There is no refusal exactly where the table is closed ([`refusals_are_exact`]), and then the works are those of a closed
//!   book ([`unrefused_tables_are_closed_books`]).
//! - The certificate of a finished book without opens is accepted, and the report of the closed book that it gives is that of
//!   the book ([`own_certificates_give_the_report`]).
#![tactic(auto)]

mod exits;
mod laws;
mod refusal;
mod table;
mod walk;

pub use laws::{
    certificates_of_closed_tables_pass, own_certificates_give_the_report, refusals_are_exact,
    unrefused_tables_are_closed_books,
};
pub use refusal::{CheckError, Refusal};
pub use walk::check;
