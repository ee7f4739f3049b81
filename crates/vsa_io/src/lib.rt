//! Streams of bytes in memory and over the standard input and output. The traits that they meet, [`Source`] and [`Sink`],
//! stand in `streams`, which says what their contracts tell of bytes and faults; they are named again here.
//!
//! [`CleanSource`], [`MemSource`], [`CleanSink`] and [`MemSink`] work in memory. Their clauses give the answer of
//! each call, the bytes and the state behind it exactly, from what they were made of, so a caller can compute a
//! whole run. A sink takes all its memory when it is made, and no write fails for want of it.
//!
//! [`StdinSource`] and [`StdoutSink`] stand over the standard input and output. They count each fault, and tell no
//! bytes: what a file, a terminal or a pipe gives or takes is not proved.
#![tactic(auto)]

mod calls;
mod memory_sinks;
mod memory_sources;
mod standard;

pub use memory_sinks::{CleanSink, MemSink};
pub use memory_sources::{CleanSource, MemSource};
pub use no_memory::Memory;
pub use standard::{StdinSource, StdoutSink};
pub use streams::{Failed, PrintError, Sink, Source, write_all};
