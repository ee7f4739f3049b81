//! What is known of a byte or a word of RAM by the parts of cells that have it.

ghost use Rattle.std.specs.Prelude.{◌≡◌, ◌<◌, ℕ, true};
ghost use Rattle.value_set.specs.Form.{Has};
ghost use Rattle.entry_value.specs.Cells as the_cells;

use crate::laws::{bytes_stay_bytes, value_laws};
use crate::word::Word;
use value_bits::w16;
use value_set::{Vs8, Vs16};

/// The numbers of one byte or of two.
fn any_of(size: u8) -> Vs16
    ensures { result ≡ the_cells.any_of size }
{
    if size != 1 {
        return Vs16::any();
    }
    match Vs16::run(0, 1, 256) {
        Some(bytes) => bytes,
        None => unreachable!(),
    }
}

/// A word of one byte or of two of which nothing is known, so that a cell with it says nothing.
pub fn unknown(size: u8) -> Word
    ensures value { result ≡ the_cells.unknown size }
    ensures nothing { the_cells.is_nothing size result ≡ true }
    ensures byte { size ≡ 1 → (v : ℕ) → Has 65536 result.set v → v < 256 }
{
    bytes_stay_bytes();
    value_laws();
    Word {
        set: any_of(size),
        entry: None,
    }
}

/// Whether a word of a size says nothing.
pub fn is_nothing(size: u8, word: &Word) -> bool
    ensures { result ≡ the_cells.is_nothing size word.now }
{
    any_of(size).within(&word.set) && word.entry.is_none()
}

/// The word of a byte.
pub fn word_of_byte(byte: Option<Vs8>) -> Vs16
    ensures { result ≡ the_cells.word_of_byte byte }
{
    match byte {
        Some(byte) => w16::pair(&byte, &Vs8::one(0)),
        None => any_of(1),
    }
}

/// The word of two bytes.
pub fn word_of_bytes(low: Option<Vs8>, high: Option<Vs8>) -> Vs16
    ensures { result ≡ the_cells.word_of_bytes low high }
{
    match (low, high) {
        (Some(low), Some(high)) => w16::pair(&low, &high),
        _ => any_of(2),
    }
}
