//! Reading cells.

ghost use Rattle.std.specs.Prelude.{◌≡◌, ◌⊎◌};
ghost use Rattle.entry_value.specs.Cells as the_cells;
ghost use Rattle.abs_memory.specs.Finding.{Ascend};

use crate::finding::{cell_at, owner};
use entry_value::{Cell, Word, word_of_byte, word_of_bytes};
use value_bits::w16;
use value_set::Vs8;

/// The byte at an address, as far as the cell that has it says.
fn byte_at(cells: &[Cell], at: u16) -> Option<Vs8>
    requires { Ascend 0 cells.now }
    ensures { result ≡ the_cells.byte_at cells.now at }
{
    let index = owner(cells, at)?;
    let cell = &cells[index];
    if cell.place == at {
        Some(w16::low(&cell.word.set))
    } else {
        Some(w16::high(&cell.word.set))
    }
}

/// What is put together from the parts of cells, without a relation.
fn put_together(cells: &[Cell], at: u16, size: u8) -> Word
    requires { Ascend 0 cells.now }
    ensures { result ≡ the_cells.put_together cells.now at size }
{
    let set = if size == 1 {
        word_of_byte(byte_at(cells, at))
    } else {
        word_of_bytes(byte_at(cells, at), byte_at(cells, at.wrapping_add(1)))
    };
    Word { set, entry: None }
}

/// The cell of that size, else what is put together.
#[tactic(auto, unfolding(entry_value::specs::Cells::read))]
pub(crate) fn read(cells: &[Cell], at: u16, size: u8) -> Word
    requires { Ascend 0 cells.now }
    ensures { result ≡ the_cells.read cells.now at size }
{
    match cell_at(cells, at, size) {
        Some(word) => word,
        None => put_together(cells, at, size),
    }
}
