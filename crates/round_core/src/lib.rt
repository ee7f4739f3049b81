//! How code keeps the book of an analysis: nodes with their states, the works of units, what may be claimable, and the journal of
//! what was done. The rules that it keeps are those of `book_rules`.
#![tactic(auto)]

mod agenda;
mod ahead;
mod beginning;
mod book;
mod candidates;
mod claim;
mod expect;
mod former;
mod inputs;
mod key;
mod met;
mod nodes;
mod parts;
mod place;
mod places;
mod post;
mod raise;
mod raised;
mod renewal;
mod spent;
mod table;
mod ticket;
mod turns;
mod works;

pub use ahead::Ahead;
pub use book::Book;
pub use book_rules::Event;
pub use spent::Spent;
pub use ticket::{Claimed, Done, Ticket};
