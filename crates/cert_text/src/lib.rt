//! Certificates: the text of a table of nodes with their states. A writer makes it, and a reader takes it in pieces of any
//! cut. `specs/Certificate.antt` has the format.
//!
//! Proved:
//!
//! - A text denotes a table exactly where it is the certificate of the table, and so of one alone ([`certificates_are_tables`]).
//! - The [`Reader`] answers the table of the text, or the first line at fault and what is wrong with it, whatever the pieces.
//! - Nodes have one certificate, in whatever order they come ([`certificates_are_one`]).
//! - What [`write`] and [`write_nodes`] append is the certificate of the nodes. Those of any book have one
//!   ([`nodes_of_books_are_formed`]).
#![tactic(auto)]

mod cert;
mod fault;
mod laws;
mod line;
mod reader;
mod writer;

pub use cert::Cert;
pub use fault::{LineFault, ReadError};
pub use laws::{
    certificates_are_one, certificates_are_tables, nodes_of_books_are_formed, tables_have_nodes,
};
pub use reader::{MOST_BYTES, Reader};
pub use writer::{book_certificate, certificate_of, write, write_nodes};
