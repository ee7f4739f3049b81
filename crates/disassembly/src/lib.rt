//! The disassembly of an image, for any chip whose instructions can be read.
//!
//! Proved: [`disassembly_of`] gives exactly the text that `specs/Listing.antt` says, of which there is one for each image.
#![tactic(auto)]

mod code;
mod listing;

pub use code::{Code, Line};
pub use listing::disassembly_of;
