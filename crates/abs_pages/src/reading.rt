//! Reading cells, by those that begin at an address and in front of it.

ghost use Rattle.std.specs.Prelude.{◌≡◌, ◌⊎◌, true};
ghost use Rattle.entry_value.specs.Cells as the_cells;
ghost use Rattle.abs_pages.specs.Paging as paging;
ghost use Rattle.abs_pages.specs.Paging.{AreRead, flat};

use crate::finding::page_at;
use crate::page::Page;
use entry_value::{Word, unknown, word_of_byte, word_of_bytes};
use value_bits::w16;
use value_set::Vs8;

/// The size and the word of the cell that begins at an address.
pub(crate) fn begun_at(pages: &[Page], at: u16) -> Option<(u8, Word)>
    requires { AreRead pages.now }
    ensures { result ≡ paging.begun_at (flat pages.now) at }
{
    match page_at(pages, at / 32) {
        Some(page) => page.begun_at(at),
        None => None,
    }
}

/// The high byte of the cell of two bytes that begins at an address.
pub(crate) fn high_byte(pages: &[Page], at: u16) -> Option<Vs8>
    requires { AreRead pages.now }
    ensures { result ≡ paging.high_of (paging.begun_at (flat pages.now) at) }
{
    let (size, word) = begun_at(pages, at)?;
    if size == 2 {
        Some(w16::high(&word.set))
    } else {
        None
    }
}

/// The byte at an address, as far as the cell that has it says.
fn byte_at(pages: &[Page], at: u16) -> Option<Vs8>
    requires { AreRead pages.now }
    ensures { result ≡ the_cells.byte_at (flat pages.now) at }
{
    match begun_at(pages, at) {
        Some((_, word)) => Some(w16::low(&word.set)),
        None => high_byte(pages, at.saturating_sub(1)),
    }
}

/// What is put together from the parts of cells, without a relation.
fn put_together(pages: &[Page], at: u16, size: u8) -> Word
    requires { AreRead pages.now }
    ensures { result ≡ the_cells.put_together (flat pages.now) at size }
{
    let set = if size == 1 {
        word_of_byte(byte_at(pages, at))
    } else {
        word_of_bytes(byte_at(pages, at), byte_at(pages, at.wrapping_add(1)))
    };
    Word { set, entry: None }
}

/// Whether what stands at an address has no byte of a cell of another page.
fn is_inside(at: u16, size: u8) -> bool
    ensures { result ≡ paging.is_inside at size }
{
    at % 32 != 0 && (size == 1 || at % 32 != 31)
}

/// The word of the cell that begins at an address with a size.
fn cell_at(pages: &[Page], at: u16, size: u8) -> Option<Word>
    requires { AreRead pages.now }
    ensures { result ≡ the_cells.cell_at (flat pages.now) at size }
{
    match begun_at(pages, at) {
        Some((found, word)) => { if found == size { Some(word) } else { None } }
        None => None,
    }
}

/// The cell of that size, else what is put together from the parts of cells of any pages.
#[tactic(auto, unfolding(entry_value::specs::Cells::read))]
fn read_across(pages: &[Page], at: u16, size: u8) -> Word
    requires { AreRead pages.now }
    ensures { result ≡ the_cells.read (flat pages.now) at size }
{
    match cell_at(pages, at, size) {
        Some(word) => word,
        None => put_together(pages, at, size),
    }
}

/// The cell of that size, else what is put together. No cell of another page has a byte of it, so its own page gives it.
fn read_inside(pages: &[Page], at: u16, size: u8) -> Word
    requires read { AreRead pages.now }
    requires size { (size ≡ 1) ⊎ (size ≡ 2) }
    requires inside { paging.is_inside at size ≡ true }
    ensures { result ≡ the_cells.read (flat pages.now) at size }
{
    match page_at(pages, at / 32) {
        Some(page) => page.read(at, size),
        None => unknown(size),
    }
}

/// The cell of that size, else what is put together.
pub(crate) fn read(pages: &[Page], at: u16, size: u8) -> Word
    requires read { AreRead pages.now }
    requires size { (size ≡ 1) ⊎ (size ≡ 2) }
    ensures { result ≡ the_cells.read (flat pages.now) at size }
{
    if is_inside(at, size) {
        read_inside(pages, at, size)
    } else {
        read_across(pages, at, size)
    }
}
