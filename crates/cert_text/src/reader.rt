//! The reader of a certificate that comes in pieces.

ghost use Rattle.std.specs.Prelude.{◌≡◌, ◌++◌, ◌∷◌, ◌+◌, ◌<◌, ◌≤◌, ℕ, [], Some, None, Ok, Err, length, take, IfOk, IfErr, OnOk, OnErr};
ghost use Rattle.cert_text.specs.declared.fault.LineFault.{LineFault as AFault};
ghost use Rattle.cert_text.specs.declared.fault.ReadError.{ReadError as AnError};
ghost use Rattle.cert_text.specs.Certificate.{first_row, table_of};
ghost use Rattle.cert_text.specs.Reading.{IsFaultyFront, TellsFront, TellsWhole};

use crate::cert::Cert;
use crate::fault::{LineFault, ReadError};
use crate::laws::certificates_are_tables;
use crate::line::{Progress, accept};
use state_text::LawfulText;
use std::alloc::Global;
use std::marker::Model;
use std::snapshot::Snapshot;

/// The longest certificate that a reader takes, in bytes.
pub const MOST_BYTES: usize = 268_435_456;

/// Reads a certificate in pieces of any cut. It keeps the line that has begun and what the whole lines gave. Contracts see
/// the chip's program with options, the text that was fed so far, and the error that is answered from now on, if any.
#[derive(Drop)]
pub struct Reader<C: LawfulText> {
    /// Only clauses read it: a snapshot has no bytes.
    chip: Snapshot<C>,
    /// The whole lines as contracts see them. Only their number is kept.
    lines: Vec<Snapshot<Vec<u8>>>,
    line: Vec<u8>,
    progress: Progress<C::Abs>,
    error: Option<ReadError>,
}

impl<C: LawfulText> Model for Reader<C> {
    ghost use Rattle.std.specs.Prelude.{map};
    ghost use Rattle.text_fields.specs.Lines.{joined};
    ghost use Rattle.cert_text.specs.Reading.{Reading, HasRead};

    ghost Value = { Reading C.Base };

    ghost view = { λ r. record {
      base = C.base r.chip.value;
      text = joined (map (λ line. line.value.items) r.lines.items) r.line.items;
      error = r.error;
    } };

    ghost invariant = { λ r. C.program (C.base r.chip.value) × HasRead (C.analysis (C.base r.chip.value)) (C.texts (C.base r.chip.value))
        (map (λ line. line.value.items) r.lines.items) r.line.items r.progress };
}

impl<C: LawfulText> Reader<C> {
    /// No text yet.
    pub fn new(alloc: Global, chip: &C) -> Reader<C>
        ensures { result ≡ record { base = C.base chip.now; text = []; error = None } }
    {
        chip.is_program();
        Reader {
            chip: Snapshot::of(chip),
            lines: Vec::new(alloc),
            line: Vec::new(alloc),
            progress: Progress::new(alloc),
            error: None,
        }
    }

    /// Takes the next piece of the text. It answers the first faulty line as soon as that is whole, with its line feed.
    /// After an error each later call answers the same one. At most `MOST_BYTES` are fed in all.
    pub fn feed(&mut self, alloc: Global, chip: &C, piece: &[u8]) -> Result<(), ReadError>
        requires same { C.base chip.now ≡ self.old.base }
        requires limit { length self.old.text + length piece.now ≤ MOST_BYTES }
        ensures again { (error : AnError) → self.old.error ≡ Some error → result ≡ Err error }
        ensures bad { self.old.error ≡ None
            → IfErr result (TellsFront (C.analysis self.old.base) (C.texts self.old.base) (self.old.text ++ piece.now)) }
        ensures good { OnOk result ((number : ℕ) (fault : AFault) → ¬ IsFaultyFront (C.analysis self.old.base) (C.texts self.old.base) (self.old.text ++ piece.now) number fault) }
        ensures text { OnOk result (self.new ≡ record self.old { text = self.old.text ++ piece.now }) }
        ensures failed { IfErr result (λ error. (used : ℕ)
            × (self.new ≡ record self.old { text = self.old.text ++ take used piece.now; error = Some error })) }
    {
        if let Some(error) = self.error {
            return Err(error);
        }
        for (i, byte) in piece.iter().enumerate() {
            if let Err(error) = self.take(alloc, chip, *byte) {
                self.error = Some(error);
                return Err(error);
            }
        }
        Ok(())
    }

    /// The table that the text as a whole denotes, or its first faulty line.
    pub fn end(self) -> Result<Cert<C>, ReadError>
        ensures again { (error : AnError) → self.error ≡ Some error → result ≡ Err error }
        ensures table { IfOk result (λ cert.
            table_of (C.analysis self.base) (C.texts self.base) self.text ≡ Ok cert.rows) }
        ensures first { IfOk result (λ cert. (cert.base ≡ self.base)
            × (cert.first ≡ first_row (C.analysis self.base) (C.texts self.base) self.text)) }
        ensures bad { self.error ≡ None
            → IfErr result (TellsWhole (C.analysis self.base) (C.texts self.base) self.text) }
    {
        certificates_are_tables::<C>();
        if let Some(error) = self.error {
            return Err(error);
        }
        let Reader {
            chip,
            lines,
            line,
            progress,
            ..
        } = self;
        let number = lines.len() as u32 + 1;
        if progress.is_complete(&line) {
            let first = progress.count_pages() as u32 + 2;
            return Ok(Cert {
                chip,
                first,
                rows: progress.into_rows(),
            });
        }
        Err(ReadError::Bad {
            line: number,
            fault: LineFault::Syntax,
        })
    }

    /// Takes the next byte.
    fn take(&mut self, alloc: Global, chip: &C, byte: u8) -> Result<(), ReadError>
        requires same { C.base chip.now ≡ self.old.base }
        requires room { length self.old.text < MOST_BYTES }
        ensures text { OnOk result (self.new ≡ record self.old { text = self.old.text ++ byte ∷ [] }) }
        ensures stays { OnErr result (self.new ≡ self.old) }
        ensures bad { IfErr result (TellsFront (C.analysis self.old.base) (C.texts self.old.base) (self.old.text ++ byte ∷ [])) }
        ensures good { OnOk result ((number : ℕ) (fault : AFault) → ¬ IsFaultyFront (C.analysis self.old.base) (C.texts self.old.base) self.new.text number fault) }
    {
        if byte == b'\n' {
            return self.end_line(alloc, chip);
        }
        self.line.push(byte)?;
        Ok(())
    }

    /// Takes the line feed of the line that has begun.
    fn end_line(&mut self, alloc: Global, chip: &C) -> Result<(), ReadError>
        requires same { C.base chip.now ≡ self.old.base }
        requires room { length self.old.text < MOST_BYTES }
        ensures text { OnOk result (self.new ≡ record self.old { text = self.old.text ++ 10 ∷ [] }) }
        ensures stays { OnErr result (self.new ≡ self.old) }
        ensures bad { IfErr result (TellsFront (C.analysis self.old.base) (C.texts self.old.base) (self.old.text ++ 10 ∷ [])) }
        ensures good { OnOk result ((number : ℕ) (fault : AFault) → ¬ IsFaultyFront (C.analysis self.old.base) (C.texts self.old.base) self.new.text number fault) }
    {
        let number = self.lines.len() as u32 + 1;
        self.lines.push(Snapshot::of(&self.line))?;
        if let Err(error) = accept(alloc, chip, &mut self.progress, &self.line, number) {
            self.lines.pop();
            return Err(error);
        }
        self.line.clear();
        Ok(())
    }
}
