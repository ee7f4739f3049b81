//! Streams in memory, as rows ask for them.

ghost use Rattle.std.specs.Prelude.{◌<◌};

use std::alloc::{AllocError, Global};

/// More than any answer has.
pub const ROOM: usize = 16384;

/// How a stream goes: bytes a call, bytes in all, and the calls that fail.
#[derive(Drop)]
pub struct Way {
    pub piece: usize,
    pub room: usize,
    pub failing: Vec<u64>,
    ghost some: { 0 < piece },
}

impl Way {
    /// A source of a row: bytes a call, and the calls that fail.
    pub fn of_source(alloc: Global, text: &str) -> Result<Way, AllocError> {
        let (piece, failing) = text.split_once(' ').unwrap_or((text, ""));
        Way::with(alloc, piece, ROOM, failing)
    }

    /// A sink of a row: bytes a call, bytes in all, and the calls that fail.
    pub fn of_sink(alloc: Global, text: &str) -> Result<Way, AllocError> {
        let (piece, rest) = text.split_once(' ').unwrap_or((text, ""));
        let (room, failing) = rest.split_once(' ').unwrap_or((rest, ""));
        Way::with(alloc, piece, room.parse::<usize>().unwrap_or(0), failing)
    }

    fn with(alloc: Global, piece: &str, room: usize, calls: &str) -> Result<Way, AllocError> {
        let mut failing = Vec::new(alloc);
        for call in calls.split_whitespace() {
            failing.push(call.parse::<u64>().unwrap_or(0))?;
        }
        Ok(Way {
            piece: piece.parse::<usize>().unwrap_or(1).max(1),
            room,
            failing,
        })
    }
}
