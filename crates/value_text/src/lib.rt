//! The parts of what is known of a state, as fields of a text: sets, words and bytes with their relations, known bits,
//! touched ranges, and cells.
//!
//! `specs/` has the fields, each a term of the kinds of `text_fields`, and their laws: no value has two texts, and what is
//! read has the form that a state asks of it. The calls read and write them, each with one exact clause.
#![tactic(auto)]

mod bits;
mod cells;
mod members;
mod memory;
mod ram;
mod ranges;
mod sets;
mod words;
mod writing;

pub use bits::{push_bit, push_bits, read_bit, read_bits};
pub use cells::RamField;
pub use members::is_even_set;
pub use memory::{memory_outside, push_memory, read_memory};
pub use ram::{push_cells, read_cells};
pub use ranges::{push_ranges, read_ranges};
pub use sets::{read_byte_set, read_word_set};
pub use words::{Places, push_byte, push_relation, push_word, read_byte, read_relation, read_word};
pub use writing::{push_byte_set, push_word_set};
