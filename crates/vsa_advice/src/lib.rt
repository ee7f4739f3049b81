//! Words for a person who runs the program, on standard error: what is wrong with the words of a command line, what an input is
//! that is no image text, what a fault of a text means, what a run asks whose script ends too early, and what a report shows
//! that is rarely meant.
#![tactic(auto)]

mod faults;
mod inputs;
mod mirrored;
mod need;
mod noted;
mod progress;
mod question;
mod slips;
mod source;
mod usage;
mod warnings;
mod words;

pub use faults::{Fault, image_fault, text_fault};
pub use inputs::other_input;
pub use mirrored::{Mirrored, mirrored_in};
pub use need::{asked_of, print_need};
pub use noted::Noted;
pub use progress::{line_of, megabytes_in};
pub use question::question_text;
pub use slips::{Slip, print_slip, slip_of};
pub use source::{NotedSource, kept_text};
pub use usage::USAGE;
pub use warnings::{lacks_assertions, print_unasked, print_warnings, watch_of};
