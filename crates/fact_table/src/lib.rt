//! A book that several workers share: each call is one turn at the lock, and what it answers is what the book answers on
//! the journal with which that turn begins.
//!
//! [`FactTable::new`] lays a book down, and [`FactTable::split`] gives a seat to each worker. [`FactTable::claim`] takes
//! out a unit for the seat, [`FactTable::post`] takes in its work, and [`FactTable::give_back`] puts it back without.
//! [`FactTable::exchange`] takes in several works and takes out the next units in one turn, and says why it takes out no more.
//! It compares and joins states before that turn, as far as it knows the nodes that the works post to.
//! [`FactTable::join`] takes in the seat of a worker that has ended, and [`FactTable::close`] gives the book back.
//!
//! Contracts see a seat as `turn_table` shows it: `seen` is the journal as far as the seat knows it. Each call is one
//! equation of such seats (`specs/Seats.antt`): its turn began with a journal that begins with the old `seen`, and the
//! new one is that journal with the call's one event, or with none where the answer is no ticket, or memory ran out. An
//! exchange adds its posts and then its claims, each of which is what the book answers at its place.
//!
//! Behind each call the events of the seat's number, in the journal as far as it has seen it, are those of its own calls and no
//! others (`own`).
//!
//! A ticket is out to a seat where it is out by the seat's `seen`, and claimed by it. It stays so until that seat ends
//! it, whatever others do in between.
#![tactic(auto)]

mod door;
mod exchange;
mod facts;
mod table;

pub use exchange::{Exchanged, Last};
pub use facts::{Facts, Seat};
pub use table::FactTable;
