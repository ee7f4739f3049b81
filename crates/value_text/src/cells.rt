//! Cells.

ghost use Rattle.std.specs.Prelude.{◌≡◌, IfOk};
ghost use Rattle.std.specs.Option.{option_map};
ghost use Rattle.text_fields.specs.Numbers.{IsWidth, hex_number};
ghost use Rattle.text_fields.specs.Fields.{beside};
ghost use Rattle.value_text.specs.Cells as fields;

use crate::members::is_byte_set;
use crate::words::{Places, push_word, read_word};
use entry_value::{Cell, is_nothing};
use std::alloc::{AllocError, Global};
use text_fields::{Field, cut, number, push_number, read_list_or_mark};

/// A cell as a field, in an interrupt's frame or in none.
#[derive(Clone, Copy)]
pub(crate) struct CellField<P: Places> {
    pub(crate) places: P,
    pub(crate) framed: bool,
}

/// A RAM as a text, in an interrupt's frame or in none.
#[derive(Clone, Copy)]
pub struct RamField<P: Places> {
    pub places: P,
    pub framed: bool,
    /// Its first and last address.
    pub lo: u16,
    pub hi: u16,
}

impl<P: Places> RamField<P> {
    pub fn new(places: P, framed: bool, lo: u16, hi: u16) -> RamField<P>
        ensures { result ≡ record { places = places; framed = framed; lo = lo; hi = hi } }
    {
        RamField {
            places,
            framed,
            lo,
            hi,
        }
    }
}

/// How many bytes: one or two.
fn read_size(text: &[u8]) -> Option<u8>
    ensures { result ≡ fields.size_field.value text.now }
{
    let size = number(text, 1)?;
    if size == 1 || size == 2 {
        Some(size as u8)
    } else {
        None
    }
}

/// A place and a size.
fn read_at(text: &[u8], digits: u8) -> Option<(u16, u8)>
    requires { IsWidth digits }
    ensures { result ≡ (beside 46 (hex_number digits) fields.size_field).value text.now }
{
    let (place, size) = cut(text, b'.')?;
    Some((number(place, digits)?, read_size(size)?))
}

/// A cell of any kind.
fn read_cell<P: Places>(places: P, framed: bool, text: &[u8]) -> Option<Cell>
    ensures { result ≡ fields.any_cell (P.width places) (P.names places) framed text.now }
{
    let (at, word) = cut(text, b':')?;
    let (place, size) = read_at(at, places.digits())?;
    let word = read_word(places, framed, word)?;
    Some(Cell { place, size, word })
}

impl<P: Places> Field for CellField<P> {
    type Value = Cell;

    ghost use Rattle.value_text.specs.Cells.{cell_field};

    ghost field = { λ cell.
        cell_field (P.width cell.places) (P.names cell.places) cell.framed (P.keeps cell.places) };

    fn read(&self, text: &[u8]) -> Option<Cell> {
        let cell = read_cell(self.places, self.framed, text)?;
        if self.places.is_kept(&cell) {
            Some(cell)
        } else {
            None
        }
    }

    fn push(&self, value: &Cell, out: &mut Vec<u8>) -> Result<(), AllocError> {
        push_number(out, value.place, self.places.digits())?;
        out.push(b'.')?;
        push_number(out, value.size as u16, 1)?;
        out.push(b':')?;
        push_word(self.places, &value.word, out)
    }
}

/// Whether a cell lies in RAM, has numbers of its size, and says something.
fn is_cell(lo: u16, hi: u16, cell: &Cell) -> bool
    ensures { result ≡ fields.is_cell lo hi cell.now }
{
    lo <= cell.place
        && cell.place as u32 + cell.size as u32 <= hi as u32 + 1
        && (cell.size != 1 || is_byte_set(&cell.word.set))
        && !is_nothing(cell.size, &cell.word)
}

/// Whether cells in RAM from an address to another ascend, and none overlaps the next.
fn are_cells(lo: u16, hi: u16, cells: &[Cell]) -> bool
    ensures { result ≡ fields.are_cells lo hi lo cells.now }
{
    let mut from = lo as u32;
    for cell in cells {
        if !is_cell(lo, hi, cell) || (cell.place as u32) < from {
            return false;
        }
        from = cell.place as u32 + cell.size as u32;
    }
    true
}

/// The cells of a RAM that a text spells.
pub(crate) fn listed_cells<P: Places>(
    alloc: Global,
    ram: RamField<P>,
    text: &[u8],
) -> Result<Option<Vec<Cell>>, AllocError>
    ensures { IfOk result (λ found. option_map (λ cells. cells.items) found
        ≡ (fields.cells_field (P.width ram.places) (P.names ram.places) ram.framed (P.keeps ram.places) ram.lo ram.hi).value text.now) }
{
    let field = CellField {
        places: ram.places,
        framed: ram.framed,
    };
    let Some(cells) = read_list_or_mark(alloc, &field, b';', b"-".as_slice(), text)? else {
        return Ok(None);
    };
    if are_cells(ram.lo, ram.hi, &cells) {
        Ok(Some(cells))
    } else {
        Ok(None)
    }
}
