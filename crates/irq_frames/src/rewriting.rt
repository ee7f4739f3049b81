//! A walk over cells that writes over some of them.

ghost use Rattle.std.specs.Prelude.{◌≡◌, ◌≤◌, ◌<◌, ℕ, Option, Some, IfOk, OnOk};
ghost use Rattle.value_set.specs.Form.{Has};
ghost use Rattle.entry_value.specs.declared.cells.Cell.{Cell as ACell};
ghost use Rattle.entry_value.specs.declared.word.Word.{Word as AWord};
ghost use Rattle.entry_value.specs.Cells as the_cells;
ghost use Rattle.entry_value.specs.Cells.{AreCells, IsCell, kept};
ghost use Rattle.irq_frames.specs.Rewriting.{IsOver, IsRewritten};

use entry_value::{Cell, Cells, Word};
use no_memory::Memory;
use std::alloc::Global;

/// The cell with the least place that is at least an address. It lies whole in RAM.
pub(crate) fn next_cell<M: Cells>(cells: &M, from: u32) -> Option<Cell>
    ensures value { result ≡ the_cells.next (M.map cells.now).cells from }
    ensures form { (cell : ACell) → result ≡ Some cell → IsCell 0 65535 cell }
    ensures from { (cell : ACell) → result ≡ Some cell → from ≤ cell.place }
    ensures high { (M.map cells.now).hi < 65536 }
    ensures are { let map = M.map cells.now in AreCells map.lo map.hi map.lo map.cells }
{
    cells.keep_form();
    match cells.next(from) {
        None => None,
        Some((place, size, word)) => Some(Cell { place, size, word }),
    }
}

/// What becomes of cells, each in its place.
pub(crate) trait Rewrites {
    /// What becomes of a cell, if it doesn't go.
    ghost made: { Self → ACell → Option ACell };

    /// The word that is written over a cell, unless it stays. A cell with a word that says nothing goes.
    fn word(&self, cell: &Cell) -> Option<Word>
        requires { IsCell 0 65535 cell.now }
        ensures made { IsOver (made self.now cell.now) cell.now result }
        ensures byte { (word : AWord) → result ≡ Some word → cell.now.size ≡ 1
            → (v : ℕ) → Has 65536 word.set v → v < 256 };
}

/// Writes over a cell, unless it stays.
fn rewrite<M: Cells, R: Rewrites>(all: &mut M, rewrites: &R, cell: &Cell) -> Result<(), Memory>
    requires { IsCell 0 65535 cell.now }
    ensures { OnOk result (IsRewritten (R.made rewrites.now cell.now) cell.now
        (M.map all.old) (M.map all.new)) }
{
    match rewrites.word(cell) {
        None => Ok(()),
        Some(word) => all.write_one(cell.place, cell.size, word),
    }
}

/// What becomes of each of some cells.
pub(crate) fn rewritten<M: Cells, R: Rewrites>(
    alloc: Global,
    cells: &M,
    rewrites: &R,
) -> Result<M, Memory>
    ensures { IfOk result (λ all. M.map all
        ≡ record (M.map cells.now) { cells = kept (R.made rewrites.now) (M.map cells.now).cells }) }
{
    let mut all = cells.copy(alloc)?;
    let mut from = 0u32;
    while let Some(cell) = next_cell(cells, from) {
        rewrite(&mut all, rewrites, &cell)?;
        from = cell.place as u32 + cell.size as u32;
    }
    Ok(all)
}
