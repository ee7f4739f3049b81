//! Calls on cells as a list and as pages, beside a plain RAM.

ghost use Rattle.std.specs.Prelude.{◌≤◌};

use crate::cells::{Call, Kept, are_read, are_same, is_next};
use crate::plain::Plain;
use crate::ranges::Fourth;
use crate::values::Put;
use abs_memory::CellList;
use abs_pages::CellPages;
use entry_value::Cells;
use irq_frames::{Ranges, unrelated};
use no_memory::Memory;
use std::alloc::Global;

/// The most addresses that are read behind a call.
const MOST_PLACES: u16 = 0x100;

/// Whether values are read of cells once relations are left out.
fn is_unrelated<C: Cells>(alloc: Global, cells: &C, puts: &[Put]) -> Result<bool, Memory> {
    let cells = unrelated(alloc, cells)?;
    Ok(are_read(&cells, puts))
}

/// Cells as a list and as pages.
#[derive(Drop)]
pub struct Walk {
    lists: Kept<CellList>,
    pages: Kept<CellPages>,
    plain: Plain,
    /// The addresses that are read behind a call: RAM, with some in front of it and behind it.
    base: u16,
    places: u16,
    mark: u16,
    /// How many calls left a cell at the mark or above.
    marked: u32,
}

impl Walk {
    /// No cells of a RAM.
    pub fn new(alloc: Global, low: u16, high: u16, mark: u16) -> Result<Walk, Memory>
        requires { low ≤ high }
    {
        let lists = Kept::new(alloc, low, high).ok();
        let pages = Kept::new(alloc, low, high).ok();
        let plain = Plain::new(alloc).ok();
        let ((lists, pages), plain) = lists.zip(pages).zip(plain).ok_or(Memory)?;
        Ok(Walk {
            lists,
            pages,
            plain,
            base: low.wrapping_sub(8),
            places: (high - low).saturating_add(17).min(MOST_PLACES),
            mark,
            marked: 0,
        })
    }

    /// Makes a call on both, and tells whether it leaves the same cells, which hold of the plain RAM.
    pub fn call(
        &mut self,
        alloc: Global,
        call: Call,
        puts: &[Put],
        marks: &[u16],
    ) -> Result<bool, Memory> {
        self.lists.call(alloc, call, puts, marks)?;
        self.pages.call(alloc, call, puts, marks)?;
        self.write_plain(call, puts);
        if self.pages.these.next(u32::from(self.mark)).is_some() {
            self.marked = self.marked.wrapping_add(1);
        }
        Ok(self.is_sound())
    }

    /// Writes into the plain RAM what a call on cells writes.
    fn write_plain(&mut self, call: Call, puts: &[Put]) {
        if matches!(
            call,
            Call::Write | Call::WriteAny | Call::Join | Call::Widen
        ) {
            for put in puts {
                self.plain.write(put);
            }
        }
    }

    /// Whether both have the same cells, which hold of the plain RAM.
    fn is_sound(&self) -> bool {
        let (base, places) = (self.base, self.places);
        are_same(&self.lists, &self.pages, base, places)
            && self.plain.is_held(&self.lists.these, base, places)
            && self.plain.is_held(&self.pages.these, base, places)
    }

    pub fn are_read(&self, puts: &[Put]) -> bool {
        are_read(&self.lists.these, puts) && are_read(&self.pages.these, puts)
    }

    pub fn is_next(&self, from: u16, put: Option<&Put>) -> bool {
        is_next(&self.lists.these, from, put) && is_next(&self.pages.these, from, put)
    }

    /// Whether the cells of a name are within those of another one.
    pub fn is_within(&self, one: &str, other: &str, wanted: bool) -> bool {
        let lists = self.lists.named(one).within(self.lists.named(other));
        let pages = self.pages.named(one).within(self.pages.named(other));
        lists == wanted && pages == wanted
    }

    /// How many calls left a cell at the mark or above.
    pub fn marked(&self) -> u32 {
        self.marked
    }

    /// Whether values are read once relations are left out.
    pub fn are_unrelated(&self, alloc: Global, puts: &[Put]) -> Result<bool, Memory> {
        Ok(
            is_unrelated(alloc, &self.lists.these, puts)?
                && is_unrelated(alloc, &self.pages.these, puts)?,
        )
    }

    /// Lets cells go on behind a handler whose exit has the others.
    pub fn resume(&mut self, alloc: Global, held: &Fourth, touched: &Ranges) -> Result<(), Memory> {
        self.lists.resume(alloc, held, touched)?;
        self.pages.resume(alloc, held, touched)
    }
}
