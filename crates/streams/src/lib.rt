//! Streams of bytes that may fail: a source that is read, a sink that is written, and what their contracts
//! tell of bytes and faults.
//!
//! A [`Source`] tells the bytes that are left, and a [`Sink`] the bytes that it holds, or they tell none. Each
//! counts its faults, in a count that never falls and that stays once it stands at the greatest 64-bit number.
//!
//! Proved of each implementation, since the traits ask it:
//!
//! - A read gives the next bytes, at most as many as the buffer has. It gives none only at the end of the
//!   input, where the source tells what is left. A read that fails takes nothing.
//! - A write appends a front of the bytes. A write that fails appends nothing.
//! - A call fails, or a write takes none of the bytes that are there, only where the count of faults rose, and
//!   the count rises in no other call.
//!
//! [`write_all`] appends all of the bytes with no fault, or a front of them and then answers [`Failed`], where the
//! count rose. It always returns.
//!
//! Beside the traits stand lemmas that whoever implements or calls them cites: a stream that tells no bytes
//! (`specs/Untold.antt`), a count that rises by one (`Count.antt`), and pieces in a row (`Pieces.antt`).
#![tactic(auto)]

mod refusal;
mod stream;

pub use refusal::{Failed, PrintError};
pub use stream::{Sink, Source, write_all};
