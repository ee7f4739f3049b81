//! A lock whose turns leave one history, for any value that has a history of events and a base.
//!
//! [`TurnTable::new`] lays a value down and gives the first [`Seat`]; [`TurnTable::split`] gives further seats, one
//! for each thread. [`TurnTable::turn`] draws a ticket by a `fetch_add` on one word, waits until the word that counts
//! the turns is that ticket, and takes the value out of the one slot. [`TurnTable::pass`] puts it back and counts the
//! turn. Tickets are served in order, so one seat at a time has the value. [`TurnTable::join`] takes in a seat that
//! has ended, and [`TurnTable::close`] gives the value back once all seats stand in one.
//!
//! Contracts see a seat as a `ShownSeat` (`specs/Shown.antt`), and each call is one equation of such records:
//!
//! - `table` is the name of its table, `number` that of its events; `seats` bounds all numbers; no call changes them.
//! - `base` is the base of the value given to `new`, and of the value at the start of each turn.
//! - `seen` is the history as far as the seat knows it. It only grows at its end. While the seat `holds` the turn it
//!   is the history with which that turn began, and `pass` may add any number of events of this seat to it.
//! - `mine` are the seat's own events: exactly those of its number in `seen`, each once.
//! - `stands` counts the seats that stand in it, and `made` those that were made (0 where another seat says it).
//!   They are equal exactly in a seat in which all stand, and such a seat has seen the whole history.
//! - `room` is the greatest number that `split` may still give, or 0.
//! - `ended` has the numbers of the seats that it took in, each with its events: in the closed table's history these are
//!   all that the number has.
//!
//! The rule between any two atomic steps is `Kept` (`specs/Rule.antt`). Nothing is promised of progress: not that a
//! call of `turn` returns, nor how long it waits. Between seats that told each other nothing no order is known.
#![tactic(auto)]

mod bells;
mod board;
mod journaled;
mod seat;
mod steps;
mod table;
mod view;

pub use journaled::Journaled;
pub use seat::{Seat, Turn};
pub use table::TurnTable;
