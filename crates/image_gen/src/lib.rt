//! Large programs to measure an analysis by: so many functions that are called one after the other, as Intel HEX texts.
//!
//! [`make`] is exact: `specs/Made.antt` has the programs of both chips byte by byte, and `specs/Records.antt` their
//! records.
#![tactic(auto)]

mod image_text;
mod laws;
mod mcs51;
mod msp430;
mod records;

pub use image::ChipName;
pub use image_text::{MOST, make};
pub use laws::calls_reach_functions;
