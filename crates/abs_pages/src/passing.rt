//! Making pages of pages, each by itself.

ghost use Rattle.std.specs.Prelude.{◌≡◌, Option, IfOk};
ghost use Rattle.entry_value.specs.declared.cells.Cell.{Cell as ACell};
ghost use Rattle.entry_value.specs.Cells.{kept};
ghost use Rattle.abs_pages.specs.Paging.{ArePages, IsPage, KeepsPlaces, MadeOf, flat};

use crate::page::Page;
use no_memory::Memory;
use std::alloc::Global;

/// What is made of each cell of a page, all other pages aside.
pub(crate) trait Pass {
    /// A cell that is made of a cell, if any.
    ghost applied: { Self → ACell → Option ACell };

    /// It can be made.
    ghost can_pass: { Self → Type 0 };

    /// The page of the cells that are made, unless there are none.
    fn pass(&self, alloc: Global, page: &Page) -> Result<Option<Page>, Memory>
        requires able { can_pass self.now }
        requires page { IsPage page.now }
        ensures { IfOk result (MadeOf page.now (kept (applied self.now) page.now.map.cells)) };
}

/// The pages of the cells that are made of all pages' cells.
pub(crate) fn passed<P: Pass>(
    alloc: Global,
    pages: &[Page],
    pass: &P,
    bounds: (u16, u16),
) -> Result<Vec<Page>, Memory>
    requires able { P.can_pass pass.now }
    requires places { KeepsPlaces (P.applied pass.now) }
    requires pages { ArePages bounds.0 bounds.1 pages.now }
    ensures pages { IfOk result (λ all. ArePages bounds.0 bounds.1 all.items) }
    ensures value { IfOk result (λ all. flat all.items ≡ kept (P.applied pass.now) (flat pages.now)) }
{
    let _ram = bounds;
    let mut all = Vec::new(alloc);
    for page in pages {
        match pass.pass(alloc, page)? {
            Some(made) => all.push(made)?,
            None => {}
        }
    }
    Ok(all)
}
