//! The script of a run: numbers that choose among the options that a chip has, one a line.
//!
//! `specs/Script.antt` says which numbers a text denotes, or which of its lines is refused first (`script_of`). A line is
//! the bytes up to a line feed or the end, without one carriage return at its end; it is blank, or a number of 1 to 4
//! hexadecimal digits in either case.
//!
//! Proved of [`Reader`], however the text is cut into pieces:
//!
//! - [`Reader::end`] answers the numbers that the text denotes, or its first refused line.
//! - [`Reader::feed`] answers the first refused line exactly where that is whole, with its line feed, in what was fed.
//! - After an error each later call answers the same one.
//!
//! [`refusals_stay`] is the law that what `feed` refuses is refused however the text goes on.
#![tactic(auto)]

mod fault;
mod feeding;
mod laws;
mod line;

pub use fault::ScriptError;
pub use feeding::{MOST_BYTES, Reader};
pub use laws::refusals_stay;
