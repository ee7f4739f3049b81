//! The reader of a script that comes in pieces.

ghost use Rattle.std.specs.Prelude.{◌≡◌, ◌++◌, ◌∷◌, ◌+◌, ◌<◌, ◌≤◌, ℕ, [], Some, None, Ok, Err, length, take, IfOk, IfErr, OnOk, OnErr};
ghost use Rattle.script_text.specs.declared.fault.ScriptError.{ScriptError};
ghost use Rattle.script_text.specs.Script.{script_of};
ghost use Rattle.script_text.specs.Reading.{IsRefusedWithin, TellsFront, TellsWhole};

use crate::fault::ScriptError;
use crate::line::push_line;
use std::alloc::Global;
use std::marker::Model;
use std::snapshot::Snapshot;
use text_lines::without_return;

/// The longest script that a reader takes, in bytes.
pub const MOST_BYTES: usize = 268_435_456;

/// Reads a script in pieces of any cut. It keeps the line that has begun and the numbers of the whole lines. Contracts see
/// the text that was fed so far, and the error that is answered from now on, if any.
#[derive(Drop)]
pub struct Reader {
    // The whole lines as contracts see them. Only their number is kept: a snapshot has no bytes.
    lines: Vec<Snapshot<Vec<u8>>>,
    line: Vec<u8>,
    numbers: Vec<u16>,
    error: Option<ScriptError>,
}

impl Model for Reader {
    ghost use Rattle.std.specs.Prelude.{map};
    ghost use Rattle.script_text.specs.Reading.{Reading, joined, HasRead};

    ghost Value = { Reading };

    ghost view = { λ r. record {
      text = joined (map (λ line. line.value.items) r.lines.items) r.line.items;
      error = r.error;
    } };

    ghost invariant = { λ r. HasRead (map (λ line. line.value.items) r.lines.items) r.line.items r.numbers.items };
}

impl Reader {
    /// No text yet.
    pub fn new(alloc: Global) -> Reader
        ensures { result ≡ record { text = []; error = None } }
    {
        Reader {
            lines: Vec::new(alloc),
            line: Vec::new(alloc),
            numbers: Vec::new(alloc),
            error: None,
        }
    }

    /// Takes the next piece of the text. It answers the first refused line as soon as that is whole, with its line feed.
    /// After an error each later call answers the same one. At most `MOST_BYTES` are fed in all.
    pub fn feed(&mut self, piece: &[u8]) -> Result<(), ScriptError>
        requires { length self.old.text + length piece.now ≤ MOST_BYTES }
        ensures again { (error : ScriptError) → self.old.error ≡ Some error → result ≡ Err error }
        ensures bad { self.old.error ≡ None → IfErr result (TellsFront (self.old.text ++ piece.now)) }
        ensures good { OnOk result ((line : ℕ) → ¬ IsRefusedWithin (self.old.text ++ piece.now) line) }
        ensures text { OnOk result (self.new ≡ record self.old { text = self.old.text ++ piece.now }) }
        ensures failed { IfErr result (λ error. (used : ℕ)
            × (self.new ≡ record self.old { text = self.old.text ++ take used piece.now; error = Some error })) }
    {
        if let Some(error) = self.error {
            return Err(error);
        }
        for (i, byte) in piece.iter().enumerate() {
            if let Err(error) = self.take(*byte) {
                self.error = Some(error);
                return Err(error);
            }
        }
        Ok(())
    }

    /// The numbers of the text that was fed, as a whole, or its first refused line.
    pub fn end(self) -> Result<Vec<u16>, ScriptError>
        ensures again { (error : ScriptError) → self.error ≡ Some error → result ≡ Err error }
        ensures numbers { IfOk result (λ numbers. script_of self.text ≡ Ok numbers.items) }
        ensures bad { self.error ≡ None → IfErr result (TellsWhole self.text) }
    {
        if let Some(error) = self.error {
            return Err(error);
        }
        let Reader {
            lines,
            line,
            mut numbers,
            error: _,
        } = self;
        if line.is_empty() {
            return Ok(numbers);
        }
        push_line(&mut numbers, lines.len() as u32, without_return(&line))?;
        Ok(numbers)
    }

    /// Takes the next byte.
    fn take(&mut self, byte: u8) -> Result<(), ScriptError>
        requires room { length self.old.text < MOST_BYTES }
        ensures text { OnOk result (self.new ≡ record self.old { text = self.old.text ++ byte ∷ [] }) }
        ensures stays { OnErr result (self.new ≡ self.old) }
        ensures bad { IfErr result (TellsFront (self.old.text ++ byte ∷ [])) }
        ensures good { OnOk result ((line : ℕ) → ¬ IsRefusedWithin self.new.text line) }
    {
        if byte == b'\n' {
            return self.end_line();
        }
        self.line.push(byte)?;
        Ok(())
    }

    /// Takes the line feed of the line that has begun.
    fn end_line(&mut self) -> Result<(), ScriptError>
        requires room { length self.old.text < MOST_BYTES }
        ensures text { OnOk result (self.new ≡ record self.old { text = self.old.text ++ 10 ∷ [] }) }
        ensures stays { OnErr result (self.new ≡ self.old) }
        ensures bad { IfErr result (TellsFront (self.old.text ++ 10 ∷ [])) }
        ensures good { OnOk result ((line : ℕ) → ¬ IsRefusedWithin self.new.text line) }
    {
        let count = self.lines.len() as u32;
        self.lines.push(Snapshot::of(&self.line))?;
        if let Err(error) = push_line(&mut self.numbers, count, without_return(&self.line)) {
            self.lines.pop();
            return Err(error);
        }
        self.line.clear();
        Ok(())
    }
}
