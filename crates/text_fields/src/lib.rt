//! Fields of a text: what the text of a value is, which value a text is, and that these two are one another's reverse.
//!
//! `specs/Spelling.antt` has what a field is: the text of each value, the value of each text that is one, and the form of
//! the values that have a text. A field is exact where no value has two texts and no other text is read. The kinds of
//! fields stand in the other files of `specs/`, with their laws as functions between facts: a kind is exact where its
//! parts are. A caller builds a field as one term, and the law of it as the term of the same shape.
//!
//! - `Numbers.antt`: hexadecimal numbers of a fixed length, and without leading zeros.
//! - `Fields.antt`: names, tests, marks, pairs, tails, one of two, tables, and other words for the same.
//! - `Lists.antt`: lists with a byte between each two, and rows of single bytes.
//! - `Fronts.antt`: fields in front of others, and several that each have a name.
//! - `Items.antt`: the fields of one line, with a space between each two.
//! - `Lines.antt`: the lines of a text, and machines that read line by line.
//!
//! The calls read and write the parts, each with one exact clause.
#![tactic(auto)]

mod fronts;
mod lists;
mod names;
mod reading;
mod writing;

pub use fronts::{push_front, push_named, read_front, read_named};
pub use lists::{Field, push_list, push_list_or_mark, read_list, read_list_or_mark};
pub use names::{push_name, read_name};
pub use reading::{behind, cut, has, number, short};
pub use writing::push_number;
