//! Pages of cells, as a representation of them.

use crate::joining::{Joining, Widening};
use crate::page::Page;
use crate::scattering::Scattering;
use crate::{finding, joining, passing, reading, writing};
use entry_value::{Cells, Word, cell_laws};
use no_memory::Memory;
use std::alloc::Global;
use std::marker::Model;
use value_set::Vs16;

/// The cells of a RAM in pages of 32 addresses, in ascending order. Equal pages of several states may be one.
#[derive(Drop)]
pub struct CellPages {
    lo: u16,
    hi: u16,
    pages: Vec<Page>,
}

impl Model for CellPages {
    ghost use Rattle.entry_value.specs.Cells.{CellMap};

    ghost Value = { CellMap };

    ghost use Rattle.abs_pages.specs.Paging.{IsPaged, flat};

    ghost view = { λ all. record { lo = all.lo; hi = all.hi; cells = flat all.pages.items } };

    ghost invariant = { λ all. IsPaged all.lo all.hi all.pages.items };
}

impl Cells for CellPages {
    ghost map = { λ pages. pages };

    fn empty(alloc: Global, lo: u16, hi: u16) -> Result<Self, Memory> {
        Ok(CellPages {
            lo,
            hi,
            pages: Vec::new(alloc),
        })
    }

    fn keep_form(&self) {
        let _lo = self.lo;
    }

    fn read(&self, at: u16, size: u8) -> Word {
        cell_laws();
        reading::read(&self.pages, at, size)
    }

    fn write_one(&mut self, at: u16, size: u8, value: Word) -> Result<(), Memory> {
        cell_laws();
        let _normal = value.set.form();
        let bounds = (self.lo, self.hi);
        writing::write_one(&mut self.pages, bounds, at, size, value)
    }

    fn write_any(&mut self, at: &Vs16, size: u8, value: Word) -> Result<(), Memory> {
        cell_laws();
        if at.count() == 1 {
            return self.write_one(at.nth(0), size, value);
        }
        let _normal = (at.form(), value.set.form());
        let alloc = *self.pages.allocator();
        let scattering = Scattering {
            at,
            size,
            word: value,
        };
        self.pages = passing::passed(alloc, &self.pages, &scattering, (self.lo, self.hi))?;
        Ok(())
    }

    fn next(&self, from: u32) -> Option<(u16, u8, Word)> {
        finding::next(&self.pages, from)
    }

    fn join(&self, alloc: Global, other: &Self) -> Result<Self, Memory> {
        cell_laws();
        let joining = Joining {
            others: &other.pages,
        };
        Ok(CellPages {
            lo: self.lo,
            hi: self.hi,
            pages: passing::passed(alloc, &self.pages, &joining, (self.lo, self.hi))?,
        })
    }

    fn widen(&self, alloc: Global, new: &Self, marks: &[u16]) -> Result<Self, Memory> {
        cell_laws();
        let widening = Widening {
            others: &new.pages,
            marks,
        };
        Ok(CellPages {
            lo: self.lo,
            hi: self.hi,
            pages: passing::passed(alloc, &self.pages, &widening, (self.lo, self.hi))?,
        })
    }

    fn within(&self, other: &Self) -> bool {
        cell_laws();
        joining::are_within(&self.pages, &other.pages)
    }

    fn copy(&self, alloc: Global) -> Result<Self, Memory> {
        Ok(CellPages {
            lo: self.lo,
            hi: self.hi,
            pages: writing::shared(alloc, &self.pages)?,
        })
    }
}
