//! Writing cells.

ghost use Rattle.std.specs.Prelude.{◌≡◌, ◌≤◌, ◌<◌, ◌+◌, ◌-◌, ◌||◌, nat_lt, not, vec_capacity, vec_len};
ghost use Rattle.std.specs.List.{filter};
ghost use Rattle.value_set.specs.Joining as joins;
ghost use Rattle.entry_value.specs.Cells as the_cells;
ghost use Rattle.abs_memory.specs.Finding.{Ascend, EachEndsBelow};

use crate::finding::{owner, places_below};
use entry_value::{Cell, Word, is_nothing};
use value_set::Vs16;

/// Takes out the cell that has the byte of an address.
fn take_out(cells: &mut Vec<Cell>, at: u16)
    requires { Ascend 0 cells.old.items }
    ensures value { cells.new.items ≡ filter (λ cell. not (the_cells.has_byte cell at)) cells.old.items }
    ensures ascend { Ascend 0 cells.new.items }
    ensures len { vec_len cells.new ≤ vec_len cells.old }
    ensures capacity { vec_capacity cells.new ≡ vec_capacity cells.old }
{
    match owner(cells, at) {
        Some(index) => {
            cells.remove(index);
        }
        None => {}
    }
}

/// Puts a cell in its place. There is room for it.
fn put(cells: &mut Vec<Cell>, cell: Cell)
    requires ascend { Ascend 0 cells.old.items }
    requires room { vec_len cells.old < vec_capacity cells.old }
    ensures { cells.new.items ≡ the_cells.insert cell cells.old.items }
{
    let index = places_below(cells, cell.place as u32 + 1);
    match cells.insert(index, cell) {
        Ok(()) => {}
        Err(_) => unreachable!(),
    }
}

/// Takes out the cells that an access of a size at an address meets.
fn take_out_met(cells: &mut Vec<Cell>, at: u16, size: u8)
    requires { Ascend 0 cells.old.items }
    ensures value { cells.new.items ≡ filter (λ cell. not (the_cells.meets at size cell)) cells.old.items }
    ensures ascend { Ascend 0 cells.new.items }
    ensures len { vec_len cells.new ≤ vec_len cells.old }
    ensures capacity { vec_capacity cells.new ≡ vec_capacity cells.old }
{
    take_out(cells, at);
    if size == 2 {
        take_out(cells, at.wrapping_add(1));
    }
}

/// Whether a cell doesn't lie whole in RAM, or says nothing.
fn is_left_out(lo: u16, hi: u16, cell: &Cell) -> bool
    requires { 1 ≤ cell.now.size }
    ensures { result ≡ (nat_lt cell.now.place lo || nat_lt hi (cell.now.place + cell.now.size - 1) || the_cells.is_nothing cell.now.size cell.now.word) }
{
    cell.place < lo
        || (hi as u32) < cell.place as u32 + cell.size as u32 - 1
        || is_nothing(cell.size, &cell.word)
}

/// Writes a cell: those that it meets go, and it is put in its place where it lies whole in RAM and says something. There
/// is room for it.
pub(crate) fn write_one(cells: &mut Vec<Cell>, lo: u16, hi: u16, cell: Cell)
    requires size { 1 ≤ cell.size }
    requires ascend { Ascend 0 cells.old.items }
    requires room { vec_len cells.old < vec_capacity cells.old }
    ensures { cells.new.items ≡ the_cells.with_cell lo hi cell (filter (λ one. not (the_cells.meets cell.place cell.size one)) cells.old.items) }
{
    take_out_met(cells, cell.place, cell.size);
    if !is_left_out(lo, hi, &cell) {
        put(cells, cell);
    }
}

/// Whether an address is one of some.
fn is_in(at: &Vs16, address: u16) -> bool
    ensures { result ≡ joins.is_in 65536 at.now address }
{
    at.has(address)
}

/// Whether an access of a size at one of the addresses has a byte of the cell, and isn't at the cell's own place.
fn is_met_beside(at: &Vs16, size: u8, cell: &Cell) -> bool
    requires { cell.now.size ≡ 2 → cell.now.place < 65535 }
    ensures { result ≡ the_cells.meets_beside at.now size cell.now }
{
    cell.size == 2 && is_in(at, cell.place + 1)
        || size == 2 && is_in(at, cell.place.wrapping_add(u16::MAX))
}

/// The cell, where it says something.
pub(crate) fn telling(cell: Cell) -> Option<Cell>
    ensures { result ≡ the_cells.telling cell }
{
    if is_nothing(cell.size, &cell.word) {
        None
    } else {
        Some(cell)
    }
}

/// A cell behind a write at some of the addresses.
fn cell_behind(at: &Vs16, size: u8, word: &Word, cell: Cell) -> Option<Cell>
    requires { cell.size ≡ 2 → cell.place < 65535 }
    ensures { result ≡ the_cells.cell_behind at.now size word.now cell }
{
    if is_met_beside(at, size, &cell) {
        return None;
    }
    if !is_in(at, cell.place) {
        return Some(cell);
    }
    if cell.size != size {
        return None;
    }
    telling(Cell {
        place: cell.place,
        size: cell.size,
        word: cell.word.join(word),
    })
}

/// Writes a value at one of several addresses, in one pass over the cells.
pub(crate) fn write_several(cells: &mut Vec<Cell>, at: &Vs16, size: u8, word: &Word)
    requires { EachEndsBelow 65536 cells.old.items }
    ensures { cells.new.items ≡ the_cells.kept (the_cells.cell_behind at.now size word.now) cells.old.items }
{
    let mut count = 0;
    for index in 0..cells.len() {
        if let Some(cell) = cell_behind(at, size, word, cells[index]) {
            cells[count] = cell;
            count += 1;
        }
    }
    cells.truncate(count);
}
