//! Where the analysis stands.

use call_context::{Calls, Frame};

/// A location of the program, and what is known there.
#[derive(Drop)]
pub struct Location<'a, S> {
    pub pc: u16,
    pub calls: &'a Calls,
    pub frame: Frame,
    pub state: &'a S,
}
