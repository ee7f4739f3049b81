//! Words and cells that go on behind a handler.

ghost use Rattle.std.specs.Prelude.{◌≡◌, ◌<◌, ℕ, IfOk, OnOk, map};
ghost use Rattle.value_set.specs.Form.{Has};
ghost use Rattle.entry_value.specs.declared.cells.Cell.{Cell as ACell};
ghost use Rattle.entry_value.specs.declared.word.Word.{Word as AWord};
ghost use Rattle.entry_value.specs.Cells.{IsCell};
ghost use Rattle.irq_frames.specs.Resuming as resuming;
ghost use Rattle.irq_frames.specs.Resuming.{IsByteCell, going_on, resumed_cells, resumed_word, touched_cells, with_written};

use crate::ranges::Ranges;
use crate::rewriting::{Rewrites, next_cell, rewritten};
use entry_value::{Cell, Cells, Word, unknown};
use no_memory::Memory;
use std::alloc::Global;

/// What the places of a suspended state held.
pub trait Places {
    /// The word of each place.
    ghost words: { Self → ℕ → AWord };

    /// The word of a place.
    fn word(&self, place: u16) -> Word
        ensures { result ≡ words self.now place };
}

/// A word of the exit that goes on, where the place that it came from held `at`.
pub fn resume_word(at: &Word, exit: &Word) -> Word
    ensures { result ≡ resumed_word (λ place. at.now) exit.now }
{
    match exit.entry {
        None => *exit,
        Some(entry) if entry.and == 0xFFFF && entry.or == 0 => *at,
        Some(entry) => at.mask_and(entry.and).mask_or(entry.or),
    }
}

/// A word of the exit that goes on.
pub fn resume_by<P: Places>(places: &P, exit: &Word) -> Word
    ensures { result ≡ resumed_word (P.words places.now) exit.now }
{
    match exit.entry {
        None => *exit,
        Some(entry) => resume_word(&places.word(entry.place), exit),
    }
}

/// How each cell of the exit goes on.
pub trait Resumes {
    /// The word with which a cell goes on.
    ghost words: { Self → ACell → AWord };

    /// The word with which a cell goes on. It is a byte for a cell of one byte.
    fn word(&self, cell: &Cell) -> Word
        ensures value { result ≡ words self.now cell.now }
        ensures byte { IsByteCell cell.now → cell.now.size ≡ 1
            → (v : ℕ) → Has 65536 result.set v → v < 256 };
}

/// Cells go on by what the places held.
#[derive(Drop)]
struct ByPlaces<'a, P> {
    places: &'a P,
}

impl<'a, P: Places> Resumes for ByPlaces<'a, P> {
    ghost use Rattle.irq_frames.specs.Resuming.{resumed_sized};

    ghost words = { λ by. resumed_sized (P.words by.places.now) };

    fn word(&self, cell: &Cell) -> Word {
        if cell.size == 1 {
            return Word {
                set: cell.word.set,
                entry: None,
            };
        }
        resume_by(self.places, &cell.word)
    }
}

/// Whether each byte of a cell is touched.
fn is_all_touched(touched: &Ranges, cell: &Cell) -> bool
    requires { IsCell 0 65535 cell.now }
    ensures { result ≡ resuming.is_all_touched touched.now cell.now.place cell.now.size }
{
    touched.has(cell.place) && touched.has(cell.place + (cell.size - 1) as u16)
}

/// Whether no byte of a cell is touched.
fn is_untouched(touched: &Ranges, cell: &Cell) -> bool
    requires { IsCell 0 65535 cell.now }
    ensures { result ≡ resuming.is_untouched touched.now cell.now.place cell.now.size }
{
    !touched.has(cell.place) && !touched.has(cell.place + (cell.size - 1) as u16)
}

/// Drops each cell that a handler touched.
#[derive(Drop)]
struct Untouched<'a> {
    touched: &'a Ranges,
}

impl Rewrites for Untouched<'_> {
    ghost use Rattle.std.specs.Prelude.{None, Some, if◌then◌else◌};
    ghost use Rattle.irq_frames.specs.Resuming as resuming;

    ghost made = { λ untouched cell.
        if resuming.is_untouched untouched.touched.now cell.place cell.size then Some cell else None };

    fn word(&self, cell: &Cell) -> Option<Word> {
        if is_untouched(self.touched, cell) {
            return None;
        }
        Some(unknown(cell.size))
    }
}

/// Writes each of the exit's cells whose bytes are all touched, as it goes on.
fn write_touched<M: Cells, R: Resumes>(
    cells: &mut M,
    resumes: &R,
    exit: &M,
    touched: &Ranges,
) -> Result<(), Memory>
    ensures { OnOk result (M.map cells.new ≡ with_written
        (map (going_on (R.words resumes.now)) (touched_cells touched.now (M.map exit.now).cells))
        (M.map cells.old)) }
{
    let mut from = 0u32;
    while let Some(cell) = next_cell(exit, from) {
        if is_all_touched(touched, &cell) {
            cells.write_one(cell.place, cell.size, resumes.word(&cell))?;
        }
        from = cell.place as u32 + cell.size as u32;
    }
    Ok(())
}

/// The cells that go on behind a handler, of those that the suspended state had and those of the exit. Each byte outside the
/// touched ranges is what it was when the interrupt came.
pub fn cells_behind<M: Cells, R: Resumes>(
    alloc: Global,
    at: &M,
    resumes: &R,
    exit: &M,
    touched: &Ranges,
) -> Result<M, Memory>
    ensures { IfOk result (λ cells. M.map cells ≡ resuming.cells_behind
        (R.words resumes.now) (M.map at.now) (M.map exit.now) touched.now) }
{
    let mut cells = rewritten(alloc, at, &Untouched { touched })?;
    write_touched(&mut cells, resumes, exit, touched)?;
    Ok(cells)
}

/// Such cells, where those of the exit go on by what the places held.
pub fn resume_cells<M: Cells, P: Places>(
    alloc: Global,
    at: &M,
    places: &P,
    exit: &M,
    touched: &Ranges,
) -> Result<M, Memory>
    ensures { IfOk result (λ cells. M.map cells ≡ resumed_cells (P.words places.now) (M.map at.now) (M.map exit.now) touched.now) }
{
    cells_behind(alloc, at, &ByPlaces { places }, exit, touched)
}
