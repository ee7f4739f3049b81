//! Bytes, and which ranges of them are a text.

ghost use Rattle.std.specs.Prelude.{◌≡◌, ◌≤◌, ◌<◌, ◌+◌, ◌^◌, ◌⊎◌, ◌++◌, length, if◌then◌else◌, IsTrue, IfOk, OnOk};
ghost use Rattle.dense_text.specs.Ranges.{IsSound, bytes_at, closed_text, text_of};

use no_memory::Memory;

/// So many bytes from a place on, and how often they stand in the text, one after another.
#[derive(Clone, Copy)]
pub struct Piece {
    pub start: u32,
    pub len: u32,
    pub times: u32,
}

/// So many bytes from a place on.
#[derive(Clone, Copy)]
pub struct Span {
    pub start: usize,
    pub len: usize,
}

/// The text is that of the pieces, of the last piece, and of the tail, in this order.
#[derive(Drop)]
pub struct Parts {
    pub bytes: Vec<u8>,
    pub pieces: Vec<Piece>,
    /// The last piece, which is counted where the tail comes again.
    pub last: Piece,
    /// What comes next goes on here, where it stands behind it in the bytes.
    pub tail: Span,
}

/// Whether these bytes have a part from a place on.
fn has_at(bytes: &[u8], start: usize, part: &[u8]) -> bool
    ensures { IsTrue result → (start + length part.now ≤ length bytes.now)
        × (bytes_at bytes.now start (length part.now) ≡ part.now) }
{
    start <= bytes.len()
        && part.len() <= bytes.len() - start
        && &bytes[start..start + part.len()] == part
}

impl Parts {
    /// Puts the tail behind the pieces. It stays the tail.
    fn close(&mut self) -> Result<(), Memory>
        requires sound { IsSound self.old }
        requires small { length self.old.bytes.items < 2 ^ 32 }
        ensures sound { IsSound self.new }
        ensures bytes { self.new.bytes ≡ self.old.bytes }
        ensures text { OnOk result (closed_text self.new ≡ text_of self.old) }
    {
        let (last, tail) = (self.last, self.tail);
        let is_same = last.start as usize == tail.start && last.len as usize == tail.len;
        if is_same && last.times < u32::MAX {
            self.last.times += 1;
            return Ok(());
        }
        self.pieces.push(last)?;
        self.last = Piece {
            start: tail.start as u32,
            len: tail.len as u32,
            times: 1,
        };
        Ok(())
    }

    /// Sees to it that the tail ends at a place.
    fn go_to(&mut self, start: usize) -> Result<(), Memory>
        requires sound { IsSound self.old }
        requires within { start ≤ length self.old.bytes.items }
        requires near { (self.old.tail.start + self.old.tail.len ≡ start)
            ⊎ (length self.old.bytes.items < 2 ^ 32) }
        ensures sound { IsSound self.new }
        ensures bytes { self.new.bytes ≡ self.old.bytes }
        ensures text { OnOk result (text_of self.new ≡ text_of self.old) }
        ensures end { OnOk result (self.new.tail.start + self.new.tail.len ≡ start) }
    {
        if self.tail.start + self.tail.len == start {
            return Ok(());
        }
        self.close()?;
        self.tail = Span { start, len: 0 };
        Ok(())
    }

    /// Adds a part behind the bytes, and answers where it stands.
    pub fn append(&mut self, part: &[u8]) -> Result<usize, Memory>
        requires { IsSound self.old }
        ensures sound { IsSound self.new }
        ensures text { OnOk result (text_of self.new ≡ text_of self.old ++ part.now) }
    {
        let start = self.bytes.len();
        self.go_to(start)?;
        self.bytes.extend_from_slice(part)?;
        self.tail.len += part.len();
        Ok(start)
    }

    /// Adds a part, where the bytes have it from a place on and aren't more than 4 GiB, and says whether it did.
    pub fn repeat(&mut self, start: usize, part: &[u8]) -> Result<bool, Memory>
        requires { IsSound self.old }
        ensures sound { IsSound self.new }
        ensures text { IfOk result (λ added.
            text_of self.new ≡ (if added then text_of self.old ++ part.now else text_of self.old)) }
    {
        if self.bytes.len() > u32::MAX as usize || !has_at(self.bytes.as_slice(), start, part) {
            return Ok(false);
        }
        self.go_to(start)?;
        self.tail.len += part.len();
        Ok(true)
    }
}
