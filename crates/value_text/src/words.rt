//! Words and bytes with their relations.

ghost use Rattle.std.specs.Prelude.{◌≡◌, ◌++◌, ◌<◌, ◌^◌, ℕ, Bool, OnOk};
ghost use Rattle.entry_value.specs.declared.cells.Cell.{Cell as ACell};
ghost use Rattle.text_fields.specs.Spelling.{Spelling, IsExact, Avoids};
ghost use Rattle.text_fields.specs.Numbers.{IsWidth, hex_number};
ghost use Rattle.text_fields.specs.Fields.{beside, with_tail};
ghost use Rattle.value_text.specs.Sets.{set_field};
ghost use Rattle.value_text.specs.Words as fields;

use crate::sets::{read_byte_set, read_word_set};
use crate::writing::{push_byte_set, push_word_set};
use entry_value::{Byte, Cell, Entry, Word};
use std::alloc::AllocError;
use text_fields::{cut, number, push_number};
use value_set::{Vs8, Vs16};

/// What a chip calls the places whose value at an interrupt a relation may name, and what its cells are.
pub trait Places: Copy {
    /// With how many digits masks and addresses of RAM are written.
    ghost width: { Self → ℕ };

    /// The name of each place.
    ghost names: { Self → Spelling ℕ };

    /// Which cells the chip keeps, beside what holds of all.
    ghost keeps: { Self → ACell → Bool };

    /// With how many digits masks and addresses of RAM are written: 2 or 4.
    fn digits(&self) -> u8
        ensures value { result ≡ width self.now }
        ensures width { IsWidth result };

    /// No two places have one name, and no name has an ampersand or a semicolon.
    fn names_are_exact(&self)
        ensures exact { IsExact (names self.now) }
        ensures apart { Avoids (names self.now) 38 }
        ensures parted { Avoids (names self.now) 59 };

    /// The place that a name is of.
    fn read_place(&self, text: &[u8]) -> Option<u16>
        ensures { result ≡ (names self.now).value text.now };

    /// Adds the name of a place.
    fn push_place(&self, place: u16, out: &mut Vec<u8>) -> Result<(), AllocError>
        ensures { OnOk result (out.new.items ≡ out.old.items ++ (names self.now).text place) };

    /// Whether the chip keeps a cell.
    fn is_kept(&self, cell: &Cell) -> bool
        ensures { result ≡ keeps self.now cell.now };
}

/// The mask of an AND and that of an OR.
fn read_masks(text: &[u8], digits: u8) -> Option<(u16, u16)>
    requires { IsWidth digits }
    ensures { result ≡ (beside 124 (hex_number digits) (hex_number digits)).value text.now }
{
    let (and, or) = cut(text, b'|')?;
    Some((number(and, digits)?, number(or, digits)?))
}

/// The relation that a text spells: a place and both masks.
pub fn read_relation<P: Places>(places: P, text: &[u8]) -> Option<Entry>
    ensures { result ≡ (fields.relation_field (P.width places) (P.names places)).value text.now }
{
    let (name, masks) = cut(text, b'&')?;
    let place = places.read_place(name)?;
    let (and, or) = read_masks(masks, places.digits())?;
    Some(Entry { place, and, or })
}

/// A set of words, and perhaps a relation.
fn word_parts<P: Places>(places: P, text: &[u8]) -> Option<(Vs16, Option<Entry>)>
    ensures { result ≡ (with_tail 64 (set_field 4)
        (fields.relation_field (P.width places) (P.names places))).value text.now }
{
    match cut(text, b'@') {
        None => Some((read_word_set(text)?, None)),
        Some((set, relation)) => {
            Some((read_word_set(set)?, Some(read_relation(places, relation)?)))
        }
    }
}

/// A set of bytes, and perhaps a relation.
fn byte_parts<P: Places>(places: P, text: &[u8]) -> Option<(Vs8, Option<Entry>)>
    ensures { result ≡ (with_tail 64 (set_field 2)
        (fields.relation_field (P.width places) (P.names places))).value text.now }
{
    match cut(text, b'@') {
        None => Some((read_byte_set(text)?, None)),
        Some((set, relation)) => {
            Some((read_byte_set(set)?, Some(read_relation(places, relation)?)))
        }
    }
}

/// The word that a text spells. Only in an interrupt's frame it may have a relation.
pub fn read_word<P: Places>(places: P, framed: bool, text: &[u8]) -> Option<Word>
    ensures { result ≡ (fields.word_field (P.width places) (P.names places) framed).value text.now }
{
    let (set, entry) = word_parts(places, text)?;
    if framed || entry.is_none() {
        Some(Word { set, entry })
    } else {
        None
    }
}

/// The byte that a text spells. Only in an interrupt's frame it may have a relation.
pub fn read_byte<P: Places>(places: P, framed: bool, text: &[u8]) -> Option<Byte>
    ensures { result ≡ (fields.byte_field (P.width places) (P.names places) framed).value text.now }
{
    let (set, entry) = byte_parts(places, text)?;
    if framed || entry.is_none() {
        Some(Byte { set, entry })
    } else {
        None
    }
}

/// Adds a relation.
pub fn push_relation<P: Places>(
    places: P,
    entry: &Entry,
    out: &mut Vec<u8>,
) -> Result<(), AllocError>
    ensures { OnOk result (out.new.items ≡ out.old.items
        ++ (fields.relation_field (P.width places) (P.names places)).text entry.now) }
{
    places.push_place(entry.place, out)?;
    out.push(b'&')?;
    push_number(out, entry.and, places.digits())?;
    out.push(b'|')?;
    push_number(out, entry.or, places.digits())
}

/// Adds a word.
pub fn push_word<P: Places>(places: P, word: &Word, out: &mut Vec<u8>) -> Result<(), AllocError>
    ensures { OnOk result (out.new.items ≡ out.old.items
        ++ fields.word_text (P.width places) (P.names places) word.now) }
{
    push_word_set(out, &word.set)?;
    match &word.entry {
        None => Ok(()),
        Some(entry) => {
            out.push(b'@')?;
            push_relation(places, entry, out)
        }
    }
}

/// Adds a byte.
pub fn push_byte<P: Places>(places: P, byte: &Byte, out: &mut Vec<u8>) -> Result<(), AllocError>
    ensures { OnOk result (out.new.items ≡ out.old.items
        ++ fields.byte_text (P.width places) (P.names places) byte.now) }
{
    push_byte_set(out, &byte.set)?;
    match &byte.entry {
        None => Ok(()),
        Some(entry) => {
            out.push(b'@')?;
            push_relation(places, entry, out)
        }
    }
}
