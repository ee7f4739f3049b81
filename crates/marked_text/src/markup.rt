//! Text that is written piece by piece.

ghost use Rattle.std.specs.Prelude.{◌≡◌, ◌<◌, ◌++◌, decimal, false, IfOk, OnOk};
ghost use Rattle.hex_digits.specs.Digits.{hex};
ghost use Rattle.marked_text.specs.Escape.{escape, escape_byte};
ghost use Rattle.marked_text.specs.Pieces.{link_bytes, piece_bytes, pieces_bytes};
ghost use Rattle.marked_text.specs.Written.{HasMarks, HasPieces};

use crate::piece::Piece;
use hex_digits::{hex_byte, hex_word};
use no_memory::Memory;
use std::alloc::Global;

/// A text with marks, as HTML and Graphviz read it.
#[derive(Drop)]
pub struct Markup {
    text: Vec<u8>,
    /// Whether memory was refused. From then on nothing is added.
    is_short: bool,
}

impl Markup {
    /// No text yet.
    pub fn new(alloc: Global) -> Markup {
        Markup {
            text: Vec::new(alloc),
            is_short: false,
        }
    }

    /// Adds marks as they stand.
    #[tactic(auto, unfolding(crate::specs::Written::HasMarks))]
    pub fn put(&mut self, marks: &str)
        ensures { HasMarks self.old self.new marks.now }
    {
        if !self.is_short {
            self.is_short = self.marks(marks).is_err();
        }
    }

    /// Adds pieces, one behind the other.
    #[tactic(auto, unfolding(crate::specs::Written::HasPieces))]
    pub fn put_all(&mut self, pieces: &[Piece<'_>])
        ensures { HasPieces self.old self.new pieces.now }
    {
        if !self.is_short {
            self.is_short = self.pieces(pieces).is_err();
        }
    }

    /// The whole text, if there was memory for it.
    pub fn finish(self) -> Result<Vec<u8>, Memory>
        ensures { IfOk result (λ bytes. (self.is_short ≡ false) × (bytes.items ≡ self.text.items)) }
    {
        if self.is_short {
            Err(Memory)
        } else {
            Ok(self.text)
        }
    }

    /// Adds marks as they stand.
    fn marks(&mut self, marks: &str) -> Result<(), Memory>
        ensures { OnOk result (self.new.text.items ≡ self.old.text.items ++ marks.now) }
    {
        self.text.extend_from_slice(marks.as_bytes())?;
        Ok(())
    }

    /// Adds bytes as they stand.
    fn bytes(&mut self, bytes: &[u8]) -> Result<(), Memory>
        ensures { OnOk result (self.new.text.items ≡ self.old.text.items ++ bytes.now) }
    {
        self.text.extend_from_slice(bytes)?;
        Ok(())
    }

    /// Adds a byte of text in which no mark is read.
    fn escaped_byte(&mut self, byte: u8) -> Result<(), Memory>
        ensures { OnOk result (self.new.text.items ≡ self.old.text.items ++ escape_byte byte) }
    {
        if byte == b'&' {
            self.marks("&amp;")
        } else if byte == b'<' {
            self.marks("&lt;")
        } else if byte == b'>' {
            self.marks("&gt;")
        } else if byte == b'"' {
            self.marks("&quot;")
        } else {
            self.text.push(byte)?;
            Ok(())
        }
    }

    /// Adds text in which no mark is read.
    fn escaped(&mut self, text: &[u8]) -> Result<(), Memory>
        ensures { OnOk result (self.new.text.items ≡ self.old.text.items ++ escape text.now) }
    {
        for byte in text {
            self.escaped_byte(*byte)?;
        }
        Ok(())
    }

    /// Adds an address with four digits.
    fn address(&mut self, address: u16) -> Result<(), Memory>
        ensures { OnOk result (self.new.text.items ≡ self.old.text.items ++ hex 4 address) }
    {
        self.text.extend_from_slice(&hex_word(address))?;
        Ok(())
    }

    /// Adds a number with two digits.
    fn byte(&mut self, byte: u8) -> Result<(), Memory>
        ensures { OnOk result (self.new.text.items ≡ self.old.text.items ++ hex 2 byte) }
    {
        self.text.extend_from_slice(&hex_byte(byte))?;
        Ok(())
    }

    /// Adds a decimal number.
    fn number(&mut self, number: usize) -> Result<(), Memory>
        ensures { OnOk result (self.new.text.items ≡ self.old.text.items ++ decimal number) }
    {
        let digits = format!(in *self.text.allocator(); "{number}")?;
        self.marks(digits.as_str())
    }

    /// Adds a link to the row of an address.
    fn link(&mut self, address: u16) -> Result<(), Memory>
        ensures { OnOk result (self.new.text.items ≡ self.old.text.items ++ link_bytes address) }
    {
        self.marks("<a href=#")?;
        self.address(address)?;
        self.marks(">")?;
        self.address(address)?;
        self.marks("</a>")?;
        Ok(())
    }

    /// Adds a piece.
    fn piece(&mut self, piece: Piece<'_>) -> Result<(), Memory>
        ensures { OnOk result (self.new.text.items ≡ self.old.text.items ++ piece_bytes piece.entry) }
    {
        match piece {
            Piece::Marks(marks) => self.marks(marks),
            Piece::Bytes(bytes) => self.bytes(bytes),
            Piece::Text(text) => self.escaped(text),
            Piece::Address(address) => self.address(address),
            Piece::Link(address) => self.link(address),
            Piece::Byte(byte) => self.byte(byte),
            Piece::Number(number) => self.number(number),
        }
    }

    /// Adds pieces, one behind the other.
    fn pieces(&mut self, pieces: &[Piece<'_>]) -> Result<(), Memory>
        ensures { OnOk result (self.new.text.items ≡ self.old.text.items ++ pieces_bytes pieces.now) }
    {
        for piece in pieces {
            self.piece(*piece)?;
        }
        Ok(())
    }
}
