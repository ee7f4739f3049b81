//! What is made of a report: a page of HTML, graphs for Graphviz, and what two reports differ in. [`ask_of`] reads what is
//! asked, and [`view`] answers it.
#![tactic(auto)]

mod ask;
mod call_graph;
mod diff;
mod diff_names;
mod functions_table;
mod given;
mod graph;
mod listing;
mod map_strips;
mod memory_table;
mod named;
mod opens;
mod page;
mod sets;
mod style;
mod viewing;
mod words;

pub use ask::{Ask, Asked, Labels, Lists, ask_of, front_of};
pub use given::given_instead;
pub use viewing::{Shown, ViewError, view};
