//! Intel HEX: what memory image a text denotes, or which of its lines is at fault. The records are those of Intel's
//! Hexadecimal Object File Format Specification, Revision A, 1988.
//!
//! A text is a list of lines, and `specs/ImageText.antt` says which image it denotes (`Denotes`) and which of its lines
//! is the first at fault (`FirstFault`). [`image_or_fault`] is the law that each list of lines has exactly one of the
//! two.
//!
//! Proved of [`Reader`], however the text is cut into pieces:
//!
//! - [`Reader::end`] answers an image that the text denotes, or its first faulty line with its fault.
//! - [`Reader::feed`] answers the first faulty line exactly where that is whole, with its line feed, in what was fed.
//!   Where a second text is expected it uses no byte behind the end record's line feed.
//! - After an error each later call answers the same one. Want of memory comes in `new` and `feed` alone.
//!
//! [`whole_faults_stay`] is the law that what `feed` refuses is refused however the text goes on.
//!
//! A reader keeps the line that has begun, the image and a few numbers. It reads a text in linear time.
#![tactic(auto)]

mod fault;
mod feeding;
mod laws;
mod loading;
mod placing;
mod record;
mod stage;

pub use fault::{HexError, HexFault};
pub use feeding::{MOST_BYTES, Reader};
pub use image::{Image, Rules, Tail};
pub use laws::{
    ended_texts_stay, image_or_fault, images_have_bytes, images_keep_rules, whole_faults_stay,
};
