//! The traits of streams, and writing a whole piece.

ghost use Rattle.std.specs.Prelude.{◌≡◌, ℕ, ◌≤◌, ◌<◌, length, take, List, Option, IfOk, OnOk, OnErr};
ghost use Rattle.streams.specs.Stream.{HasRisen, Takes, IsAtEnd, appended, AppendsPrefix};

use crate::refusal::Failed;

/// A stream of bytes to be read.
pub trait Source {
    /// The bytes that aren't read yet, where the source tells them.
    ghost left: { Self → Option (List ℕ) };

    /// How often the source has failed.
    ghost faults: { Self → ℕ };

    /// Reads the next bytes into the front of the buffer and answers how many, 0 at the end of the input.
    fn read(&mut self, buffer: &mut [u8]) -> Result<usize, Failed>
        requires { 0 < length buffer.old }
        ensures fits { IfOk result (λ n. n ≤ length buffer.old) }
        ensures taken { IfOk result (λ n. Takes (left self.old) n buffer.new (left self.new)) }
        ensures end { IfOk result (λ n. n ≡ 0 → IsAtEnd (left self.old)) }
        ensures refused { OnErr result (left self.new ≡ left self.old) }

        // A fault is counted, and nothing else is.
        ensures cause { OnErr result (HasRisen (faults self.old) (faults self.new)) }
        ensures quiet { OnOk result (faults self.new ≡ faults self.old) }
        ensures never_falls { faults self.old ≤ faults self.new };
}

/// A stream of bytes to be written.
pub trait Sink {
    /// The bytes that were written, where the sink tells them.
    ghost held: { Self → Option (List ℕ) };

    /// How often the sink has failed.
    ghost faults: { Self → ℕ };

    /// Writes a front of the bytes and answers how many they are.
    fn write(&mut self, bytes: &[u8]) -> Result<usize, Failed>
        ensures fits { IfOk result (λ n. n ≤ length bytes.now) }
        ensures written { IfOk result (λ n. held self.new ≡ appended (held self.old) (take n bytes.now)) }
        ensures refused { OnErr result (held self.new ≡ held self.old) }

        // An answer of 0 for bytes that are there is a fault too.
        ensures cause { OnErr result (HasRisen (faults self.old) (faults self.new)) }
        ensures stalled { IfOk result (λ n. n ≡ 0 → 0 < length bytes.now → HasRisen (faults self.old) (faults self.new)) }
        ensures quiet { IfOk result (λ n. 0 < n → faults self.new ≡ faults self.old) }
        ensures nothing_to_do { length bytes.now ≡ 0 → OnOk result (faults self.new ≡ faults self.old) }
        ensures never_falls { faults self.old ≤ faults self.new };
}

/// Writes all of the bytes, in as many calls of the sink as it takes. At the first fault a front of them is
/// written, perhaps none, and nothing more is tried.
pub fn write_all<K: Sink>(sink: &mut K, bytes: &[u8]) -> Result<(), Failed>
    ensures written { OnOk result (K.held sink.new ≡ appended (K.held sink.old) bytes.now) }
    ensures quiet { OnOk result (K.faults sink.new ≡ K.faults sink.old) }
    ensures prefix { OnErr result (AppendsPrefix (K.held sink.old) bytes.now (K.held sink.new)) }
    ensures cause { OnErr result (HasRisen (K.faults sink.old) (K.faults sink.new)) }
    ensures never_falls { K.faults sink.old ≤ K.faults sink.new }
{
    let mut written = 0;
    while written < bytes.len() {
        let count = sink.write(&bytes[written..])?;
        if count == 0 {
            return Err(Failed);
        }
        written += count;
    }
    Ok(())
}
