//! Writing cells at one address.

ghost use Rattle.std.specs.Prelude.{◌≡◌, ◌⊎◌, ◌<◌, ◌≤◌, ◌/◌, ℕ, true, IfOk, OnOk, OnErr, slice_index_or, vec_len};
ghost use Rattle.std.specs.List.{filter};
ghost use Rattle.value_set.specs.Form.{Has};
ghost use Rattle.entry_value.specs.Cells as the_cells;
ghost use Rattle.entry_value.specs.Cells.{AreCells};
ghost use Rattle.abs_pages.specs.Paging as paging;
ghost use Rattle.abs_pages.specs.Paging.{ArePages, AreRead, Paged, flat, is_left_out, stays};

use crate::finding::place_of;
use crate::page::Page;
use crate::reading::{begun_at, high_byte};
use abs_memory::CellList;
use entry_value::{Cell, Cells, Word, unknown};
use no_memory::Memory;
use std::alloc::Global;

/// Writes a cell in the page at an index, which goes where no cell is left in it. A refusal leaves the pages as they were.
fn write_held(alloc: Global, pages: &mut Vec<Page>, index: usize, cell: Cell) -> Result<(), Memory>
    requires inside { index < vec_len pages.old }
    requires size { (cell.size ≡ 1) ⊎ (cell.size ≡ 2) }
    requires byte { cell.size ≡ 1 → (v : ℕ) → Has 65536 cell.word.set v → v < 256 }
    ensures value { OnOk result ((d : Paged) → pages.new.items ≡ paging.with_page_at index
        (paging.written_page (slice_index_or pages.old.items index d) cell) pages.old.items) }
    ensures kept { OnErr result (pages.new.items ≡ pages.old.items) }
{
    pages[index].write(alloc, cell)?;
    if pages[index].is_empty() {
        pages.remove(index);
    }
    Ok(())
}

/// Writes a cell in a new page, which stands at an index unless it has no cells. A refusal leaves the pages as they were.
fn write_new(
    alloc: Global,
    pages: &mut Vec<Page>,
    index: usize,
    number: u16,
    bounds: (u16, u16),
    cell: Cell,
) -> Result<(), Memory>
    requires inside { index ≤ vec_len pages.old }
    requires bounds { bounds.0 ≤ bounds.1 }
    requires size { (cell.size ≡ 1) ⊎ (cell.size ≡ 2) }
    requires byte { cell.size ≡ 1 → (v : ℕ) → Has 65536 cell.word.set v → v < 256 }
    ensures value { OnOk result (pages.new.items ≡ paging.with_page_in index
        (paging.new_page number bounds.0 bounds.1 cell) pages.old.items) }
    ensures kept { OnErr result (pages.new.items ≡ pages.old.items) }
{
    let (lo, hi) = bounds;
    let mut cells = CellList::empty(alloc, lo, hi)?;
    cells.write_one(cell.place, cell.size, cell.word)?;
    match Page::made(alloc, number, cells)? {
        Some(page) => pages.insert(index, page)?,
        None => {}
    }
    Ok(())
}

/// Writes a cell among those of one page alone, which is its own unless the cell says nothing. A refusal leaves the pages as
/// they were.
fn write_in(
    alloc: Global,
    pages: &mut Vec<Page>,
    number: u16,
    bounds: (u16, u16),
    cell: Cell,
) -> Result<(), Memory>
    requires pages { ArePages bounds.0 bounds.1 pages.old.items }
    requires bounds { bounds.0 ≤ bounds.1 }
    requires size { (cell.size ≡ 1) ⊎ (cell.size ≡ 2) }
    requires byte { cell.size ≡ 1 → (v : ℕ) → Has 65536 cell.word.set v → v < 256 }
    requires own { (cell.place / 32 ≡ number) ⊎ (is_left_out bounds.0 bounds.1 cell ≡ true) }
    ensures pages { OnOk result (ArePages bounds.0 bounds.1 pages.new.items) }
    ensures value { OnOk result (flat pages.new.items ≡ the_cells.with_cell bounds.0 bounds.1 cell
        (filter (stays number cell) (flat pages.old.items))) }
    ensures kept { OnErr result (pages.new.items ≡ pages.old.items) }
{
    match place_of(pages, number) {
        Ok(index) => write_held(alloc, pages, index, cell),
        Err(index) => write_new(alloc, pages, index, number, bounds, cell),
    }
}

/// A byte of which nothing is known.
fn nothing_at(place: u16) -> Cell
    ensures value { result ≡ record { place = place; size = 1; word = the_cells.unknown 1 } }
    ensures byte { (v : ℕ) → Has 65536 result.word.set v → v < 256 }
    ensures nothing { the_cells.is_nothing result.size result.word ≡ true }
{
    Cell {
        place,
        size: 1,
        word: unknown(1),
    }
}

/// The same pages, shared.
pub(crate) fn shared(alloc: Global, pages: &[Page]) -> Result<Vec<Page>, Memory>
    ensures { IfOk result (λ all. all.items ≡ pages.now) }
{
    let mut all = Vec::new(alloc);
    for page in pages {
        all.push(page.share()?)?;
    }
    Ok(all)
}

/// Whether a write meets a cell of another page: one that reaches over the first address of its page, or one that begins at
/// the first address of the next.
fn is_met_beside(pages: &[Page], at: u16, size: u8) -> bool
    requires { AreRead pages.now }
    ensures { result ≡ paging.is_met_beside (flat pages.now) at size }
{
    at % 32 == 0 && high_byte(pages, at.saturating_sub(1)).is_some()
        || size == 2 && at % 32 == 31 && begun_at(pages, at.wrapping_add(1)).is_some()
}

/// Pages in which a value is written, of which those that aren't written are shared.
fn written_over(
    alloc: Global,
    pages: &[Page],
    bounds: (u16, u16),
    at: u16,
    size: u8,
    word: Word,
) -> Result<Vec<Page>, Memory>
    requires pages { ArePages bounds.0 bounds.1 pages.now }
    requires bounds { bounds.0 ≤ bounds.1 }
    requires are { AreCells bounds.0 bounds.1 bounds.0 (flat pages.now) }
    requires size { (size ≡ 1) ⊎ (size ≡ 2) }
    requires byte { size ≡ 1 → (v : ℕ) → Has 65536 word.set v → v < 256 }
    ensures pages { IfOk result (λ all. ArePages bounds.0 bounds.1 all.items) }
    ensures value { IfOk result (λ all. flat all.items ≡ paging.with_written bounds.0 bounds.1
        (record { place = at; size = size; word = word }) (flat pages.now)) }
{
    let mut all = shared(alloc, pages)?;
    let front = at.saturating_sub(1) / 32;
    write_in(alloc, &mut all, front, bounds, nothing_at(at))?;
    if size == 2 {
        let behind = at.wrapping_add(1);
        write_in(alloc, &mut all, behind / 32, bounds, nothing_at(behind))?;
    }
    let cell = Cell {
        place: at,
        size,
        word,
    };
    write_in(alloc, &mut all, at / 32, bounds, cell)?;
    Ok(all)
}

/// Writes a value: the cells that it meets go, and it is put in its page where it lies whole in RAM and says something. A
/// refusal leaves the pages as they were.
pub(crate) fn write_one(
    pages: &mut Vec<Page>,
    bounds: (u16, u16),
    at: u16,
    size: u8,
    word: Word,
) -> Result<(), Memory>
    requires pages { ArePages bounds.0 bounds.1 pages.old.items }
    requires bounds { bounds.0 ≤ bounds.1 }
    requires are { AreCells bounds.0 bounds.1 bounds.0 (flat pages.old.items) }
    requires size { (size ≡ 1) ⊎ (size ≡ 2) }
    requires byte { size ≡ 1 → (v : ℕ) → Has 65536 word.set v → v < 256 }
    ensures pages { OnOk result (ArePages bounds.0 bounds.1 pages.new.items) }
    ensures value { OnOk result (flat pages.new.items ≡ paging.with_written bounds.0 bounds.1
        (record { place = at; size = size; word = word }) (flat pages.old.items)) }
    ensures kept { OnErr result (pages.new.items ≡ pages.old.items) }
{
    let alloc = *pages.allocator();
    if !is_met_beside(pages, at, size) {
        let cell = Cell {
            place: at,
            size,
            word,
        };
        return write_in(alloc, pages, at / 32, bounds, cell);
    }
    *pages = written_over(alloc, pages, bounds, at, size, word)?;
    Ok(())
}
