//! Numbers as hexadecimal digits: `hex` of `specs/Digits.antt`. They are written in upper case.
//!
//! [`hex_byte`] and [`hex_word`] give the digits of a number, [`byte`], [`word`] and [`bytes`] the number of upper-case
//! digits, if they are some, and [`word_in_either_case`] that of four digits in either case, as people write them. [`push_short_hex`] adds a number to a text without leading zeros, [`push_byte`] and [`push_word`] as an
//! assembler writes it, as `0280h`.
#![tactic(auto)]

mod either_case;
mod reading;
mod writing;

pub use either_case::word_in_either_case;
pub use reading::{byte, bytes, digit_value, word};
pub use writing::{hex_byte, hex_word, push_byte, push_short_hex, push_word};
