//! The lines of a text that is read: `lines_of` of `specs/Lines.antt`. Images, scripts and assertions are texts of such
//! lines, each with a format of its own.
//!
//! [`line_feed`] says where the first line of a text ends, and [`without_return`] what of a line is its own.
#![tactic(auto)]

mod lines;

pub use lines::{line_feed, without_return};
