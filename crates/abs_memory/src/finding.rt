//! Finding cells by their places.

ghost use Rattle.std.specs.Prelude.{◌≡◌, ◌⊎◌, ◌≤◌, ◌<◌, ℕ, true, None, Some, MatchOption, option_map, drop, length, slice_index_or};
ghost use Rattle.entry_value.specs.declared.cells.Cell.{Cell as ACell};
ghost use Rattle.entry_value.specs.Cells as the_cells;
ghost use Rattle.abs_memory.specs.Finding as finding;
ghost use Rattle.abs_memory.specs.Finding.{Ascend};

use entry_value::{Cell, Word};

/// How many cells stand in front of the first one whose place is at least an address.
pub(crate) fn places_below(cells: &[Cell], at: u32) -> usize
    requires { Ascend 0 cells.now }
    ensures value { result ≡ finding.places_below cells.now at }
    ensures bound { result ≤ length cells.now }
{
    cells.partition_point(|cell| (cell.place as u32) < at)
}

/// Whether a cell has the byte of an address.
fn has_byte(cell: &Cell, at: u16) -> bool
    ensures { result ≡ the_cells.has_byte cell.now at }
{
    cell.place <= at && (at as u32) < cell.place as u32 + cell.size as u32
}

/// The index of the cell that has the byte of an address.
pub(crate) fn owner(cells: &[Cell], at: u16) -> Option<usize>
    requires { Ascend 0 cells.now }
    ensures { MatchOption result (the_cells.byte_at cells.now at ≡ None) (λ index. (index < length cells.now) × ((d : ACell) → the_cells.has_byte (slice_index_or cells.now index d) at ≡ true)) }
{
    let below = places_below(cells, at as u32 + 1);
    if below == 0 {
        return None;
    }
    if !has_byte(&cells[below - 1], at) {
        return None;
    }
    Some(below - 1)
}

/// The word of the first of some cells, where it has a place and a size. None of them stands in front of the place.
pub(crate) fn first_at(cells: &[Cell], place: u16, size: u8) -> Option<Word>
    requires { Ascend place cells.now }
    ensures { result ≡ the_cells.cell_at cells.now place size }
{
    let cell = cells.first()?;
    if cell.place == place && cell.size == size {
        Some(cell.word)
    } else {
        None
    }
}

/// The word of the cell of a place and a size.
pub(crate) fn cell_at(cells: &[Cell], place: u16, size: u8) -> Option<Word>
    requires { Ascend 0 cells.now }
    ensures { result ≡ the_cells.cell_at cells.now place size }
{
    first_at(&cells[places_below(cells, place as u32)..], place, size)
}

/// How many cells stand in front of the first one whose place is at least an address, found by walking to it.
fn walked_below(cells: &[Cell], place: u16) -> usize
    ensures value { result ≡ finding.places_below cells.now place }
    ensures bound { result ≤ length cells.now }
{
    let mut below = 0;
    while below < cells.len() && cells[below].place < place {
        below += 1;
    }
    below
}

/// The cells from the first one whose place is at least an address, found by walking to it.
pub(crate) fn from_place(cells: &[Cell], place: u16) -> &[Cell]
    requires { Ascend 0 cells.now }
    ensures value { result.now ≡ drop (finding.places_below cells.now place) cells.now }
    ensures ascend { Ascend place result.now }
{
    &cells[walked_below(cells, place)..]
}

/// The cell with the least place that is at least an address.
pub(crate) fn next(cells: &[Cell], from: u32) -> Option<(u16, u8, Word)>
    requires { Ascend 0 cells.now }
    ensures { result ≡ option_map (λ cell. (cell.place, cell.size, cell.word)) (the_cells.next cells.now from) }
{
    let below = places_below(cells, from);
    if below == cells.len() {
        return None;
    }
    let cell = cells[below];
    Some((cell.place, cell.size, cell.word))
}
