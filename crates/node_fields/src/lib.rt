//! Nodes as fields of a text: `specs/Nodes.antt` has the spelling of frames, locations and exits, and of a row, which is a
//! node and what is written of it. The calls read and write them, each with one exact clause. `specs/Tests.antt` says how a
//! chip tests its nodes, given what it asks of an address and of a frame.
//!
//! A state's first field that isn't within that of another is told with both texts ([`Outside`], by [`told`]); `specs/Outside.antt`
//! says when there is none.
#![tactic(auto)]

mod frames;
mod outside;
mod reading;
mod writing;

pub use frames::has_entry;
pub use outside::{Outside, named_field, told};
pub use reading::{read_exit, read_location, split_row};
pub use writing::push_node;
