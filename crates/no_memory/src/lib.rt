//! The refusal that every crate knows: want of memory.
#![tactic(auto)]

mod refusal;

pub use refusal::Memory;
