//! Texts whose parts come again and again, as the steps of a loop in a trace, in little memory.
//!
//! A [`Text`] is a list of bytes to all who see it. It keeps bytes, and which ranges of them are its text, in order, each
//! with how often it stands there. A [`TextBuilder`] takes a text part by part: one that stands among the kept bytes, at
//! the place where a part with its hash stood last, is a range of them, and any other is added to them. Ranges that touch
//! are one, and a range that comes twice in a row is counted, so a loop whose parts are the same each time costs nothing
//! but its first time.
//!
//! A part that is added costs its bytes. One that is found costs 12 bytes where it doesn't stand behind the part before
//! it, and 12 more where the next one doesn't stand behind it. So a text with no part twice costs its bytes, and one
//! whose parts are at least 24 bytes each never costs more than that, but for a table of 256 KiB while it is built.
//!
//! Proved: each call's text, exactly; [`Text::write_to`] appends the whole text to a sink, or a front of it where the
//! sink's count of faults rose. That parts are found is only tested.
#![tactic(auto)]

mod builder;
mod copying;
mod parts;
mod text;
mod writing;

pub use builder::TextBuilder;
pub use text::Text;
