//! A text, as its readers see it.

ghost use Rattle.std.specs.Prelude.{◌≡◌, ◌++◌, if◌then◌else◌, IfOk, OnOk, OnErr};
ghost use Rattle.streams.specs.Stream.{AppendsPrefix, HasRisen, appended};

use crate::copying::into_bytes;
use crate::parts::{Parts, Piece, Span};
use crate::writing::write_parts;
use no_memory::Memory;
use std::marker::Model;
use streams::{Failed, Sink};

/// A list of bytes.
#[derive(Drop)]
pub struct Text {
    parts: Parts,
}

impl Model for Text {
    ghost use Rattle.std.specs.Prelude.{ℕ, List};

    ghost Value = { List ℕ };

    ghost use Rattle.dense_text.specs.Ranges.{IsSound, text_of};

    ghost view = { λ text. text_of text.parts };

    ghost invariant = { λ text. IsSound text.parts };
}

impl Text {
    /// The text of these bytes, which aren't copied.
    pub fn from_bytes(bytes: Vec<u8>) -> Text
        ensures { result ≡ bytes.items }
    {
        let alloc = *bytes.allocator();
        let len = bytes.len();
        Text {
            parts: Parts {
                bytes,
                pieces: Vec::new(alloc),
                last: Piece {
                    start: 0,
                    len: 0,
                    times: 0,
                },
                tail: Span { start: 0, len },
            },
        }
    }

    /// The bytes of the text. Those of which a text was made aren't copied.
    pub fn into_bytes(self) -> Result<Vec<u8>, Memory>
        ensures { IfOk result (λ bytes. bytes.items ≡ self) }
    {
        into_bytes(self.parts)
    }

    /// Adds a part that is kept, and answers where.
    pub(crate) fn append(&mut self, part: &[u8]) -> Result<usize, Memory>
        ensures { OnOk result (self.new ≡ self.old ++ part.now) }
    {
        self.parts.append(part)
    }

    /// Adds a part, if it is kept at this place, and says whether it did.
    pub(crate) fn repeat(&mut self, start: usize, part: &[u8]) -> Result<bool, Memory>
        ensures { IfOk result (λ added.
            self.new ≡ (if added then self.old ++ part.now else self.old)) }
    {
        self.parts.repeat(start, part)
    }

    /// Writes the text. At the first fault a front of it is written, perhaps none, and nothing more is tried.
    pub fn write_to<K: Sink>(&self, sink: &mut K) -> Result<(), Failed>
        ensures written { OnOk result (K.held sink.new ≡ appended (K.held sink.old) self.now) }
        ensures quiet { OnOk result (K.faults sink.new ≡ K.faults sink.old) }
        ensures prefix { OnErr result (AppendsPrefix (K.held sink.old) self.now (K.held sink.new)) }
        ensures cause { OnErr result (HasRisen (K.faults sink.old) (K.faults sink.new)) }
    {
        write_parts(sink, &self.parts)
    }
}
