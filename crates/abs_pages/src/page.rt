//! One page.

ghost use Rattle.std.specs.Prelude.{◌≡◌, ◌⊎◌, ◌<◌, ℕ, IfOk, OnOk, OnErr};
ghost use Rattle.value_set.specs.Form.{Has};
ghost use Rattle.entry_value.specs.Cells as the_cells;
ghost use Rattle.entry_value.specs.Cells.{AreCells};
ghost use Rattle.abs_pages.specs.Paging as paging;
ghost use Rattle.abs_pages.specs.Paging.{MadeOf};

use abs_memory::CellList;
use entry_value::{Cell, Cells, Word};
use no_memory::Memory;
use std::alloc::Global;
use std::marker::Model;
use std::sync::Arc;

/// The cells whose places lie in the 32 addresses from 32 times a number on, behind a shared pointer.
#[derive(Drop)]
pub(crate) struct Page {
    number: u16,
    cells: Arc<CellList>,
}

impl Model for Page {
    ghost use Rattle.abs_pages.specs.Paging.{Paged};

    ghost Value = { Paged };

    ghost use Rattle.std.specs.Arc.{arc_value};

    ghost view = { λ page. record { number = page.number; map = arc_value page.cells } };
}

impl Page {
    /// A page of these cells.
    pub(crate) fn new(alloc: Global, number: u16, cells: CellList) -> Result<Page, Memory>
        ensures { IfOk result (λ page. page ≡ record { number = number; map = cells }) }
    {
        let cells = Arc::new(alloc, cells)?;
        Ok(Page { number, cells })
    }

    /// A page of these cells, unless there are none.
    pub(crate) fn made(alloc: Global, number: u16, cells: CellList) -> Result<Option<Page>, Memory>
        ensures { IfOk result (MadeOf (record { number = number; map = cells }) cells.cells) }
    {
        if is_empty(&cells) {
            return Ok(None);
        }
        Ok(Some(Page::new(alloc, number, cells)?))
    }

    pub(crate) fn number(&self) -> u16
        ensures { result ≡ self.now.number }
    {
        self.number
    }

    pub(crate) fn cells(&self) -> &CellList
        ensures { result.now ≡ self.now.map }
    {
        &self.cells
    }

    /// The same page, shared. It fails only where no number counts the owners.
    pub(crate) fn share(&self) -> Result<Page, Memory>
        ensures { IfOk result (λ page. page ≡ self.now) }
    {
        let cells = Arc::try_clone(&self.cells)?;
        Ok(Page {
            number: self.number,
            cells,
        })
    }

    /// Whether the page has no cells.
    pub(crate) fn is_empty(&self) -> bool
        ensures { result ≡ paging.is_empty self.now.map.cells }
    {
        is_empty(&self.cells)
    }

    /// The size and the word of the page's cell that begins at an address.
    pub(crate) fn begun_at(&self, at: u16) -> Option<(u8, Word)>
        ensures { result ≡ paging.begun_at self.now.map.cells at }
    {
        let cells = self.cells();
        cells.keep_form();
        match cells.next(at as u32) {
            Some((place, size, word)) => {
                if place == at {
                    Some((size, word))
                } else {
                    None
                }
            }
            None => None,
        }
    }

    /// What stands at an address in 1 or 2 bytes, by the page's cells.
    pub(crate) fn read(&self, at: u16, size: u8) -> Word
        requires { (size ≡ 1) ⊎ (size ≡ 2) }
        ensures value { result ≡ the_cells.read self.now.map.cells at size }
        ensures are { AreCells self.now.map.lo self.now.map.hi self.now.map.lo self.now.map.cells }
    {
        let cells = self.cells();
        cells.keep_form();
        cells.read(at, size)
    }

    /// Writes a cell among the page's. Where the page has other owners it is copied first. A refusal leaves it as it was.
    pub(crate) fn write(&mut self, alloc: Global, cell: Cell) -> Result<(), Memory>
        requires size { (cell.size ≡ 1) ⊎ (cell.size ≡ 2) }
        requires byte { cell.size ≡ 1 → (v : ℕ) → Has 65536 cell.word.set v → v < 256 }
        ensures value { OnOk result (self.new ≡ paging.written_page self.old cell) }
        ensures kept { OnErr result (self.new ≡ self.old) }
    {
        match Arc::get_mut(&mut self.cells) {
            Some(cells) => cells.write_one(cell.place, cell.size, cell.word),
            None => {
                let mut cells = self.cells.copy(alloc)?;
                cells.write_one(cell.place, cell.size, cell.word)?;
                self.cells = Arc::new(alloc, cells)?;
                Ok(())
            }
        }
    }
}

/// Whether there are no cells.
fn is_empty(cells: &CellList) -> bool
    ensures { result ≡ paging.is_empty cells.now.cells }
{
    cells.next(0).is_none()
}
