//! A sink that remembers how its output begins and ends.

use arrayvec::ArrayVec;
use report_watch::Watch;
use streams::{Failed, Sink};

/// How many bytes are remembered: a line that tells a refusal has fewer, and so have the last two lines of a trace.
const ROOM: usize = 32;

/// A sink that passes its bytes on, and remembers the first and the last of them.
#[derive(Drop)]
pub struct Noted<K: Sink + Drop> {
    sink: K,
    first: ArrayVec<u8, ROOM>,
    last: ArrayVec<u8, ROOM>,
    /// What looks at the lines, where something does.
    watch: Option<Watch>,
}

impl<K: Sink + Drop> Noted<K> {
    /// A sink before another one.
    pub fn new(sink: K, watch: Option<Watch>) -> Noted<K> {
        Noted {
            sink,
            first: ArrayVec::new(),
            last: ArrayVec::new(),
            watch,
        }
    }

    /// The sink behind it.
    pub fn sink(&self) -> &K {
        &self.sink
    }

    /// The first bytes that were written.
    pub fn first(&self) -> &[u8] {
        self.first.as_slice()
    }

    /// The last bytes that were written.
    pub fn last(&self) -> &[u8] {
        self.last.as_slice()
    }

    /// What looked at the lines.
    pub fn watch(&self) -> Option<&Watch> {
        self.watch.as_ref()
    }
}

/// Remembers the bytes for which there is room.
fn note(first: &mut ArrayVec<u8, ROOM>, bytes: &[u8]) {
    for byte in bytes {
        if first.try_push(*byte).is_err() {
            return;
        }
    }
}

/// Remembers the last bytes for which there is room.
fn note_last(last: &mut ArrayVec<u8, ROOM>, bytes: &[u8]) {
    let end = &bytes[bytes.len().saturating_sub(ROOM)..];
    for byte in end {
        if last.is_full() {
            last.remove(0);
        }
        let _ = last.try_push(*byte);
    }
}

impl<K: Sink + Drop> Sink for Noted<K> {
    ghost held = { λ s. K.held s.sink };

    ghost faults = { λ s. K.faults s.sink };

    fn write(&mut self, bytes: &[u8]) -> Result<usize, Failed> {
        let count = self.sink.write(bytes)?;
        note(&mut self.first, &bytes[..count]);
        note_last(&mut self.last, &bytes[..count]);
        if let Some(watch) = &mut self.watch {
            watch.look(&bytes[..count]);
        }
        Ok(count)
    }
}
