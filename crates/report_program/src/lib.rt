//! The program of a report, as far as its lines tell it: its instructions with the ways between them, its functions with
//! the stack that they take, who reads and writes where, and what each byte of a memory is used for.
#![tactic(auto)]

mod bodies;
mod counts;
mod depth;
mod entries;
mod functions;
mod known;
mod lists;
mod map;
mod maps;
mod memory;
mod path;
mod program;
mod search;
mod site;
mod totals;
mod ways;

pub use counts::Counts;
pub use depth::Depths;
pub use functions::{Call, Function, Functions, Kind, Total};
pub use lists::Lists;
pub use map::{Map, Part, USES, Use};
pub use maps::{foreign_instr, maps_of};
pub use memory::{Accesses, Roots, Row};
pub use path::Step;
pub use program::Program;
pub use site::{Link, Site};
pub use ways::{Way, behind};
