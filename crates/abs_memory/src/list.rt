//! The list of cells, as a representation of them.

ghost use Rattle.std.specs.Prelude.{◌≡◌, ◌≤◌};

use crate::{finding, joining, reading, writing};
use entry_value::{Cell, Cells, Word, cell_laws};
use no_memory::Memory;
use std::alloc::Global;
use std::marker::Model;
use value_set::Vs16;

/// The cells of a RAM in ascending order of their places. A read and a write at one address find them by binary search;
/// the other calls go over them once. A write at several addresses needs no memory.
#[derive(Drop)]
pub struct CellList {
    lo: u16,
    hi: u16,
    cells: Vec<Cell>,
}

impl Model for CellList {
    ghost use Rattle.entry_value.specs.Cells.{CellMap};

    ghost Value = { CellMap };

    ghost use Rattle.abs_memory.specs.Listed.{IsList};

    ghost view = { λ list. record { lo = list.lo; hi = list.hi; cells = list.cells.items } };

    ghost invariant = { λ list. IsList list.lo list.hi list.cells.items };
}

impl Cells for CellList {
    ghost map = { λ list. list };

    fn empty(alloc: Global, lo: u16, hi: u16) -> Result<Self, Memory> {
        Ok(CellList {
            lo,
            hi,
            cells: Vec::new(alloc),
        })
    }

    fn keep_form(&self) {
        let _lo = self.lo;
    }

    fn read(&self, at: u16, size: u8) -> Word {
        cell_laws();
        reading::read(&self.cells, at, size)
    }

    fn write_one(&mut self, at: u16, size: u8, value: Word) -> Result<(), Memory> {
        cell_laws();
        let _normal = value.set.form();
        self.cells.reserve(1)?;
        let cell = Cell {
            place: at,
            size,
            word: value,
        };
        writing::write_one(&mut self.cells, self.lo, self.hi, cell);
        Ok(())
    }

    fn write_any(&mut self, at: &Vs16, size: u8, value: Word) -> Result<(), Memory> {
        cell_laws();
        if at.count() == 1 {
            return self.write_one(at.nth(0), size, value);
        }
        let _normal = (at.form(), value.set.form());
        writing::write_several(&mut self.cells, at, size, &value);
        Ok(())
    }

    fn next(&self, from: u32) -> Option<(u16, u8, Word)> {
        finding::next(&self.cells, from)
    }

    fn join(&self, alloc: Global, other: &Self) -> Result<Self, Memory> {
        cell_laws();
        Ok(CellList {
            lo: self.lo,
            hi: self.hi,
            cells: joining::join(alloc, &self.cells, &other.cells)?,
        })
    }

    fn widen(&self, alloc: Global, new: &Self, marks: &[u16]) -> Result<Self, Memory> {
        cell_laws();
        Ok(CellList {
            lo: self.lo,
            hi: self.hi,
            cells: joining::widen(alloc, &self.cells, &new.cells, marks)?,
        })
    }

    fn within(&self, other: &Self) -> bool {
        cell_laws();
        joining::are_within(&self.cells, &other.cells)
    }

    fn copy(&self, alloc: Global) -> Result<Self, Memory> {
        Ok(CellList {
            lo: self.lo,
            hi: self.hi,
            cells: self.cells.as_slice().to_vec(alloc)?,
        })
    }
}
