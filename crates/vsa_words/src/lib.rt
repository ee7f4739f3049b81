//! The words of a command line: what they ask of the program.
//!
//! `specs/Words.antt` says which words ask what (`Reads`), and [`reading_of`] answers that, or that they ask nothing.
#![tactic(auto)]

mod command;
mod numbers;
mod options;
mod reading;
mod words;

pub use command::vsa_command;
pub use numbers::{Span, number_in, range_of};
pub use options::{OptionName, Value};
pub use reading::{Mode, Reading, Target, Task, USUAL_RAM, word_of};
pub use words::{chip_of, mode_of, reading_of};
