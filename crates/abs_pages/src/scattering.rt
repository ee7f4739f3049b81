//! Writing at one of several addresses.

ghost use Rattle.std.specs.Prelude.{◌≡◌, ◌≢◌, ◌⊎◌, ◌<◌, ◌≤◌, ℕ, false};
ghost use Rattle.value_set.specs.Form.{Has, above};
ghost use Rattle.value_set.specs.Summing.{count_of};
ghost use Rattle.entry_value.specs.Cells as the_cells;
ghost use Rattle.abs_pages.specs.Paging.{before_page};

use crate::page::Page;
use crate::passing::Pass;
use entry_value::{Cells, Word, cell_laws};
use no_memory::Memory;
use std::alloc::Global;
use value_set::{Vs16, set_laws};

/// The cells of a page behind a write at one of several addresses. A page that none of them reaches is shared.
#[derive(Clone, Copy)]
pub(crate) struct Scattering<'a> {
    pub(crate) at: &'a Vs16,
    pub(crate) size: u8,
    pub(crate) word: Word,
}

/// Whether one of some addresses lies in a page, right in front of it or right behind it.
fn reaches(at: &Vs16, number: u16) -> bool
    ensures { result ≡ false → (v : ℕ) → Has 65536 at.now v → 34 ≤ above 65536 (before_page number) v }
{
    match at.cut(number.wrapping_mul(32).wrapping_sub(1), 34) {
        Some(_) => true,
        None => false,
    }
}

impl Pass for Scattering<'_> {
    ghost applied = { λ scattering. the_cells.cell_behind scattering.at.now scattering.size scattering.word };

    ghost can_pass = { λ scattering. (count_of 65536 scattering.at.now ≢ 1)
        × ((scattering.size ≡ 1) ⊎ (scattering.size ≡ 2))
        × (scattering.size ≡ 1 → (v : ℕ) → Has 65536 scattering.word.set v → v < 256) };

    fn pass(&self, alloc: Global, page: &Page) -> Result<Option<Page>, Memory> {
        if !reaches(self.at, page.number()) {
            set_laws();
            page.cells().keep_form();
            return Ok(Some(page.share()?));
        }
        cell_laws();
        let mut cells = page.cells().copy(alloc)?;
        cells.write_any(self.at, self.size, self.word)?;
        Page::made(alloc, page.number(), cells)
    }
}
