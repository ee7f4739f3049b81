//! The reader of a text that comes in pieces.

ghost use Rattle.std.specs.Prelude.{◌≡◌, ◌++◌, ◌∷◌, ◌+◌, ◌<◌, ◌≤◌, ◌↔◌, ℕ, [], Some, None, Err, length, take, IfOk, IfErr, OnOk, OnErr, IsTrue};
ghost use Rattle.ihex_read.specs.declared.fault.HexFault.{HexFault};
ghost use Rattle.ihex_read.specs.declared.fault.HexError.{HexError};
ghost use Rattle.image.specs.declared.tail.Tail.TheVariants.{Second};
ghost use Rattle.ihex_read.specs.ImageText.{Denotes};
ghost use Rattle.image.specs.Kept.{IsRamRange, IsReadUnder};
ghost use Rattle.text_lines.specs.Lines.{feeds_of, lines_of};
ghost use Rattle.ihex_read.specs.Reading.{HasEnded, FaultsWithin, TellsFront, TellsWhole};

use crate::fault::HexError;
use crate::stage::Progress;
use image::{Image, Rules, Tail};
use no_memory::Memory;
use std::alloc::Global;
use std::marker::Model;
use std::snapshot::Snapshot;
use text_lines::{line_feed, without_return};

/// The longest text that a reader takes, in bytes.
pub const MOST_BYTES: usize = 4_194_304;

/// Reads an image text in pieces of any cut. It keeps the line that has begun and what the whole lines made. Contracts
/// see the text that was used so far, and the error that is answered from now on, if any.
#[derive(Drop)]
pub struct Reader {
    progress: Progress,
    tail: Tail,
    // The whole lines as contracts see them. Only their number is kept: a snapshot has no bytes.
    lines: Vec<Snapshot<Vec<u8>>>,
    line: Vec<u8>,
    error: Option<HexError>,
}

impl Model for Reader {
    ghost use Rattle.std.specs.Prelude.{map};
    ghost use Rattle.ihex_read.specs.Reading.{Reading};
    ghost use Rattle.ihex_read.specs.Stages.{joined, HasRead};

    ghost Value = { Reading };

    ghost view = { λ r. record {
      rules = r.progress.loader.rules;
      tail = r.tail;
      text = joined (map (λ line. line.value.items) r.lines.items) r.line.items;
      error = r.error;
    } };

    ghost invariant = { λ r. HasRead r.progress.loader.rules r.tail (map (λ line. line.value.items) r.lines.items) r.line.items
        r.progress.ended r.progress.loader.base r.progress.loader.image.items };
}

impl Reader {
    /// No text yet.
    pub fn new(alloc: Global, rules: Rules, tail: Tail) -> Result<Reader, Memory>
        requires { IsRamRange rules }
        ensures { IfOk result (λ reader. reader ≡ record { rules = rules; tail = tail; text = []; error = None }) }
    {
        Ok(Reader {
            progress: Progress::new(alloc, rules)?,
            tail,
            lines: Vec::new(alloc),
            line: Vec::new(alloc),
            error: None,
        })
    }

    /// Takes the next piece of the text and answers how many bytes of it were used: all of them, save that none behind
    /// the end record's line is where a second text is expected. It answers the first faulty line as soon as that is
    /// whole, with its line feed. After an error each later call answers the same one. At most `MOST_BYTES` are used
    /// in all.
    pub fn feed(&mut self, piece: &[u8]) -> Result<usize, HexError>
        requires { length self.old.text + length piece.now ≤ MOST_BYTES }
        ensures again { (error : HexError) → self.old.error ≡ Some error → result ≡ Err error }
        ensures bad { self.old.error ≡ None
            → IfErr result (TellsFront self.old.rules self.old.tail (self.old.text ++ piece.now)) }
        ensures good { OnOk result ((line : ℕ) (fault : HexFault)
            → ¬ FaultsWithin self.old.rules self.old.tail (self.old.text ++ piece.now) line fault) }
        ensures within { IfOk result (λ used. used ≤ length piece.now) }
        ensures text { IfOk result (λ used. self.new ≡ record self.old { text = self.old.text ++ take used piece.now }) }
        // Where it stops in front of the piece's end a second text begins there, and it stops at the first such place.
        ensures stops { IfOk result (λ used. used < length piece.now
            → (self.old.tail ≡ Second) × HasEnded self.old.rules self.new.text) }
        ensures first { OnOk result (self.old.tail ≡ Second
            → (k : ℕ) → k < length self.new.text → ¬ HasEnded self.old.rules (take k self.new.text)) }
        ensures failed { IfErr result (λ error. (used : ℕ)
            × (self.new ≡ record self.old { text = self.old.text ++ take used piece.now; error = Some error })) }
    {
        if let Some(error) = self.error {
            return Err(error);
        }
        let mut used = 0;
        while !self.is_done() && used < piece.len() {
            match self.take_front(&piece[used..]) {
                Ok(count) => used += count,
                Err(error) => {
                    self.error = Some(error);
                    return Err(error);
                }
            }
        }
        Ok(used)
    }

    /// The image of the text that was used, as a whole, or its first faulty line.
    pub fn end(self) -> Result<Image, HexError>
        ensures again { (error : HexError) → self.error ≡ Some error → result ≡ Err error }
        ensures image { IfOk result (Denotes self.rules self.tail (lines_of self.text)) }
        ensures kept { IfOk result (IsReadUnder self.rules) }
        ensures bad { self.error ≡ None → IfErr result (TellsWhole self.rules self.tail (lines_of self.text)) }
    {
        if let Some(error) = self.error {
            return Err(error);
        }
        let Reader {
            mut progress,
            tail: _,
            lines,
            line,
            error: _,
        } = self;
        let count = lines.len() as u32;
        if line.is_empty() {
            return progress.finish(count);
        }
        if let Err(fault) = progress.accept(without_return(&line)) {
            return Err(HexError::Bad {
                line: count + 1,
                fault,
            });
        }
        progress.finish(count + 1)
    }

    /// Whether the end record's line was used whole, with its line feed.
    pub fn ended(&self) -> bool
        ensures { IsTrue result ↔ HasEnded self.now.rules self.now.text }
    {
        self.progress.has_ended()
    }

    /// Whether a second text begins behind the text that was used.
    fn is_done(&self) -> bool
        ensures done { IsTrue result ↔ (self.now.tail ≡ Second) × HasEnded self.now.rules self.now.text }
        ensures good { (line : ℕ) (fault : HexFault)
            → ¬ FaultsWithin self.now.rules self.now.tail self.now.text line fault }
        ensures first { self.now.tail ≡ Second
            → (k : ℕ) → k < length self.now.text → ¬ HasEnded self.now.rules (take k self.now.text) }
    {
        match self.tail {
            Tail::Blank => false,
            Tail::Second => self.progress.has_ended(),
        }
    }

    /// Takes bytes of the line that has begun.
    fn begin(&mut self, bytes: &[u8]) -> Result<(), HexError>
        requires unbroken { feeds_of bytes.now ≡ 0 }
        requires going { self.old.tail ≡ Second → ¬ HasEnded self.old.rules self.old.text }
        requires room { length self.old.text + length bytes.now ≤ MOST_BYTES }
        ensures text { OnOk result (self.new ≡ record self.old { text = self.old.text ++ bytes.now }) }
        ensures stays { OnErr result (self.new ≡ self.old) }
        ensures memory { IfErr result (λ error. error ≡ HexError.Memory) }
        ensures going { OnOk result (self.new.tail ≡ Second → ¬ HasEnded self.new.rules self.new.text) }
    {
        self.line.extend_from_slice(bytes)?;
        Ok(())
    }

    /// Takes the line feed of the line that has begun.
    fn end_line(&mut self) -> Result<(), HexError>
        requires going { self.old.tail ≡ Second → ¬ HasEnded self.old.rules self.old.text }
        requires room { length self.old.text < MOST_BYTES }
        ensures text { OnOk result (self.new ≡ record self.old { text = self.old.text ++ 10 ∷ [] }) }
        ensures stays { OnErr result (self.new ≡ self.old) }
        ensures bad { IfErr result (TellsFront self.old.rules self.old.tail (self.old.text ++ 10 ∷ [])) }
    {
        self.lines.push(Snapshot::of(&self.line))?;
        let line = self.lines.len() as u32;
        if let Err(fault) = self.progress.accept(without_return(&self.line)) {
            self.lines.pop();
            return Err(HexError::Bad { line, fault });
        }
        self.line.clear();
        Ok(())
    }

    /// Takes the front of a piece up to its first line feed and that one, or all of it, and answers how many bytes
    /// these are.
    fn take_front(&mut self, piece: &[u8]) -> Result<usize, HexError>
        requires some { 0 < length piece.now }
        requires going { self.old.tail ≡ Second → ¬ HasEnded self.old.rules self.old.text }
        requires room { length self.old.text + length piece.now ≤ MOST_BYTES }
        ensures some { IfOk result (λ used. 0 < used) }
        ensures within { IfOk result (λ used. used ≤ length piece.now) }
        ensures text { IfOk result (λ used. self.new ≡ record self.old { text = self.old.text ++ take used piece.now }) }
        ensures err { OnErr result ((used : ℕ) × (self.new ≡ record self.old { text = self.old.text ++ take used piece.now })) }
        ensures bad { IfErr result (TellsFront self.old.rules self.old.tail (self.old.text ++ piece.now)) }
    {
        if piece[0] == b'\n' {
            self.end_line()?;
            return Ok(1);
        }
        match line_feed(piece) {
            Some(at) => {
                self.begin(&piece[..at])?;
                self.end_line()?;
                Ok(at + 1)
            }
            None => {
                self.begin(piece)?;
                Ok(piece.len())
            }
        }
    }
}
