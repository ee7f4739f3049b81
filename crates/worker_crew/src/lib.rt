//! The analysis of a program by several workers, who share one book.
//!
//! [`fixpoint`] opens a book, lays it under the lock of `fact_table`, and gives each worker a seat at it. A worker claims units,
//! works on them outside the lock, where it also works out what their posts make of nodes that don't rise before, and in one turn
//! posts the works and claims the next units, one at a time. A worker that is out of memory gives its units back and ends; the
//! others go on. There are at most as many threads as processors, and at least two. The caller does the rest, and the work of
//! threads that couldn't be started.
//!
//! An idle worker waits: where no unit can be claimed and some unit is out, nothing changes before that unit is posted
//! or given back. It looks for a call for a while, and then announces a sleep at an `EventCount`, claims, and sleeps at the system
//! until another worker wakes it. Who leaves units behind its turn calls one that looks, or else wakes one that sleeps: that one
//! claims, and calls the next, as long as there are units. Who runs out of memory calls one too, and who finds the book finished
//! calls all. Where no one sleeps this is no call of the system.
//!
//! Proved:
//!
//! - [`fixpoint`] gives a finished book of the chip's program. Its journal is legal, and names only seats below the number
//!   of workers. So it is the one journal of the shared book, of which all else in the book is the replay.
//! - In it each worker answers each of its claims in their order, by the post or the give-back of that unit.
//!
//! Nothing is proved of progress: [`fixpoint`] may wait, and owes no return. That workers run at once is only tested.
#![tactic(auto)]

mod calls;
mod crew;
mod worker;

pub use crew::fixpoint;
