//! Joining, widening and comparing pages.

ghost use Rattle.std.specs.Prelude.{◌≡◌, true, false, IfOk, MatchOption};
ghost use Rattle.entry_value.specs.Words.{word_join};
ghost use Rattle.entry_value.specs.Cells as the_cells;
ghost use Rattle.abs_pages.specs.Paging.{EachPage, IsPage, MadeOf, Rise, flat};

use crate::finding::page_at;
use crate::page::Page;
use crate::passing::Pass;
use entry_value::Cells;
use no_memory::Memory;
use std::alloc::Global;

/// The cells of a page joined with those of the others that are there too.
#[derive(Clone, Copy)]
pub(crate) struct Joining<'a> {
    pub(crate) others: &'a [Page],
}

/// The cells of a page widened by those of the others that are there too.
#[derive(Clone, Copy)]
pub(crate) struct Widening<'a> {
    pub(crate) others: &'a [Page],
    pub(crate) marks: &'a [u16],
}

/// The held page, shared, where the new one's cells are within its own.
fn held_if_within(held: &Page, new: &Page) -> Result<Option<Page>, Memory>
    ensures { IfOk result (λ found. MatchOption found
        (the_cells.are_within new.now.map.cells held.now.map.cells ≡ false)
        (λ page. (the_cells.are_within new.now.map.cells held.now.map.cells ≡ true) × (page ≡ held.now))) }
{
    if new.cells().within(held.cells()) {
        Ok(Some(held.share()?))
    } else {
        Ok(None)
    }
}

/// A page joined with another one. It is shared where the other one's cells are within its own.
fn join(alloc: Global, held: &Page, new: &Page) -> Result<Option<Page>, Memory>
    requires { IsPage held.now }
    ensures { IfOk result (MadeOf held.now (the_cells.join_cells held.now.map.cells new.now.map.cells)) }
{
    held.cells().keep_form();
    if let Some(page) = held_if_within(held, new)? {
        return Ok(Some(page));
    }
    Page::made(alloc, held.number(), held.cells().join(alloc, new.cells())?)
}

/// A page widened by another one. It is shared where the other one's cells are within its own.
fn widen(alloc: Global, held: &Page, new: &Page, marks: &[u16]) -> Result<Option<Page>, Memory>
    requires { IsPage held.now }
    ensures { IfOk result (MadeOf held.now
        (the_cells.widen_cells held.now.map.cells new.now.map.cells marks.now)) }
{
    held.cells().keep_form();
    if let Some(page) = held_if_within(held, new)? {
        return Ok(Some(page));
    }
    let cells = held.cells().widen(alloc, new.cells(), marks)?;
    Page::made(alloc, held.number(), cells)
}

impl Pass for Joining<'_> {
    ghost applied = { λ joining. the_cells.with_both word_join (flat joining.others.now) };

    ghost can_pass = { λ joining. Rise 0 joining.others.now × EachPage IsPage joining.others.now };

    fn pass(&self, alloc: Global, page: &Page) -> Result<Option<Page>, Memory> {
        match page_at(self.others, page.number()) {
            Some(other) => join(alloc, page, other),
            None => Ok(None),
        }
    }
}

impl Pass for Widening<'_> {
    ghost applied = { λ widening. the_cells.cell_widened widening.marks.now (flat widening.others.now) };

    ghost can_pass = { λ widening. Rise 0 widening.others.now × EachPage IsPage widening.others.now };

    fn pass(&self, alloc: Global, page: &Page) -> Result<Option<Page>, Memory> {
        match page_at(self.others, page.number()) {
            Some(other) => widen(alloc, page, other, self.marks),
            None => Ok(None),
        }
    }
}

/// Whether each cell of a page is one of some pages' too, within there.
fn is_within(new: &[Page], held: &Page) -> bool
    requires rise { Rise 0 new.now }
    requires each { EachPage IsPage new.now }
    requires page { IsPage held.now }
    ensures { result ≡ the_cells.are_within (flat new.now) held.now.map.cells }
{
    match page_at(new, held.number()) {
        Some(page) => page.cells().within(held.cells()),
        None => false,
    }
}

/// Whether each held cell is a new one too, within there.
pub(crate) fn are_within(new: &[Page], held: &[Page]) -> bool
    requires rise { Rise 0 new.now }
    requires each { EachPage IsPage new.now }
    requires held { EachPage IsPage held.now }
    ensures { result ≡ the_cells.are_within (flat new.now) (flat held.now) }
{
    for page in held {
        if !is_within(new, page) {
            return false;
        }
    }
    true
}
