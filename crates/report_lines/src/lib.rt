//! Reads the report of an analysis, line by line, as docs/REPORT.md describes it.
//!
//! [`read`] answers a [`Report`], whose lists hold the lines of each letter in the order of the text, or the first line
//! that is refused, by its number and a sentence.
#![tactic(auto)]

mod digits;
mod line;
mod refusal;
mod report;
mod set;

pub use digits::cut;
pub use line::{Access, Cause, Edge, Instr, Kind, Line, Open, Space, Stack};
pub use refusal::{ReadError, Refusal, Why};
pub use report::{Report, Summary, read};
pub use set::{Form, Set, Width};
