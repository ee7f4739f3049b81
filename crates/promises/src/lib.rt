//! Promises: sentences about single instructions that an analysis may assume, since somebody answers for them.
//!
//! - `specs/Sentences.antt` says which promises a line has (`promises_in`), and how one is printed (`sentence`).
//! - `specs/Text.antt` says which promises a text has up to its line `END`, or which of its lines is the first faulty one, and
//!   why (`promises_of`). What stands behind that line is another text, of which nothing is said.
//! - `specs/Keeping.antt` says which steps keep promises (`keeps`): by what a step shows, in single numbers.
//!
//! What an image and its chip say of instructions is asked of [`Spoken`]: whether a promise may be made of one, and whether the
//! stack grows down by words or up by bytes. Nothing here knows an instruction.
//!
//! Proved:
//!
//! - [`read_promises`] gives exactly the promises of a text and where the text behind `END` begins, or its first faulty line
//!   with that line's first fault. It takes time linear in the text, but for the sites and targets that have stood already,
//!   which are looked up in ordered sets.
//! - [`push_promise`] adds exactly the line of a promise, and what a line promises its printed sentence promises again
//!   ([`printed_promises_are_read`]).
//! - [`broken_by`] gives the line of the promise that a step breaks, and none exactly where it keeps them all.
//! - [`windows_at`] gives the windows that are promised of an address.
#![tactic(auto)]

mod breaking;
mod fault;
mod fields;
mod fitting;
mod keeping;
mod laws;
mod printing;
mod promise;
mod reading;
mod sentences;
mod spoken;
mod told;
mod windows;

pub use breaking::broken_by;
pub use fault::{PromiseError, PromiseFault};
pub use laws::printed_promises_are_read;
pub use printing::push_promise;
pub use promise::{Promise, Window, Windows};
pub use reading::{MOST_BYTES, read_promises};
pub use spoken::{Growth, Site, Spoken};
pub use windows::windows_at;
