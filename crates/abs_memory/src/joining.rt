//! Joining, widening and comparing the cells of two RAMs, each in one pass over both.

ghost use Rattle.std.specs.Prelude.{◌≡◌, ℕ, List, Option, IfOk, nat_lt};
ghost use Rattle.std.specs.List.{filter};
ghost use Rattle.entry_value.specs.declared.cells.Cell.{Cell as ACell};
ghost use Rattle.entry_value.specs.declared.word.Word.{Word as AWord};
ghost use Rattle.entry_value.specs.Cells as the_cells;
ghost use Rattle.abs_memory.specs.Finding.{Ascend};
ghost use Rattle.abs_memory.specs.Joining.{made_with, widened_by};

use crate::finding::{first_at, from_place};
use crate::writing::telling;
use entry_value::{Cell, Word, common};
use std::alloc::{AllocError, Global};
use value_bits::w16;
use value_set::Vs8;

/// What is made of a cell and the word of the other cell of its place and size.
trait Making {
    /// What is made of them, if there is such a word.
    ghost made: { Self → ACell → Option AWord → Option ACell };

    /// It can be made.
    ghost can_make: { Self → Type 0 };

    /// What is made of them, if there is such a word.
    fn make(&self, cell: &Cell, other: Option<Word>) -> Option<Cell>
        requires { can_make self.now }
        ensures { result ≡ made self.now cell.now other };
}

/// What is made of the cells that both have.
fn united<M: Making>(
    alloc: Global,
    held: &[Cell],
    new: &[Cell],
    making: &M,
) -> Result<Vec<Cell>, AllocError>
    requires able { M.can_make making.now }
    requires held { Ascend 0 held.now }
    requires new { Ascend 0 new.now }
    ensures { IfOk result (λ all. all.items
        ≡ the_cells.kept (made_with (M.made making.now) new.now) held.now) }
{
    let mut all = Vec::new(alloc);
    let mut others = new;
    for cell in held {
        others = from_place(others, cell.place);
        match making.make(cell, first_at(others, cell.place, cell.size)) {
            Some(both) => all.push(both)?,
            None => {}
        }
    }
    Ok(all)
}

/// Words are joined.
struct Joining {}

impl Making for Joining {
    ghost use Rattle.entry_value.specs.Words as words;
    ghost use Rattle.entry_value.specs.Cells as the_cells;

    ghost made = { λ joining. the_cells.both_of words.word_join };

    ghost can_make = { λ joining. Unit {0} };

    fn make(&self, cell: &Cell, other: Option<Word>) -> Option<Cell> {
        match other {
            Some(word) => telling(Cell {
                place: cell.place,
                size: cell.size,
                word: cell.word.join(&word),
            }),
            None => None,
        }
    }
}

/// The cells that both have, joined.
#[tactic(auto, unfolding(entry_value::specs::Cells::join_cells))]
pub(crate) fn join(alloc: Global, held: &[Cell], new: &[Cell]) -> Result<Vec<Cell>, AllocError>
    requires held { Ascend 0 held.now }
    requires new { Ascend 0 new.now }
    ensures { IfOk result (λ all. all.items ≡ the_cells.join_cells held.now new.now) }
{
    united(alloc, held, new, &Joining {})
}

/// The marks below 100h.
fn low_marks(alloc: Global, marks: &[u16]) -> Result<Vec<u8>, AllocError>
    ensures { IfOk result (λ low. low.items ≡ filter (λ mark. nat_lt mark 256) marks.now) }
{
    let mut low = Vec::new(alloc);
    for mark in marks {
        if *mark < 256 {
            low.push(*mark as u8)?;
        }
    }
    Ok(low)
}

/// A word widened as a byte, by the marks below 100h.
fn byte_widened(held: &Word, new: &Word, low: &[u8]) -> Word
    ensures { (marks : List ℕ) → low.now ≡ filter (λ mark. nat_lt mark 256) marks
        → result ≡ the_cells.byte_widened held.now new.now marks }
{
    let entry = common(&held.entry, &new.entry);
    if new.set.within(&held.set) {
        return Word {
            set: held.set,
            entry,
        };
    }
    let bytes = w16::low(&held.set).widen(&w16::low(&new.set), low);
    Word {
        set: w16::pair(&bytes, &Vs8::one(0)),
        entry,
    }
}

/// A cell widened by the word of the other cell of its place and size.
fn widened(cell: &Cell, other: Option<Word>, marks: &[u16], low: &[u8]) -> Option<Cell>
    requires { low.now ≡ filter (λ mark. nat_lt mark 256) marks.now }
    ensures { result ≡ widened_by marks.now cell.now other }
{
    let word = match other {
        Some(word) => word,
        None => return None,
    };
    let wider = if cell.size == 1 {
        byte_widened(&cell.word, &word, low)
    } else {
        cell.word.widen(&word, marks)
    };
    telling(Cell {
        place: cell.place,
        size: cell.size,
        word: wider,
    })
}

/// Words are widened, those of bytes by the marks below 100h.
#[derive(Drop)]
struct Widening<'a> {
    marks: &'a [u16],
    low: &'a [u8],
}

impl Making for Widening<'_> {
    ghost use Rattle.abs_memory.specs.Joining.{widened_by};
    ghost use Rattle.std.specs.List.{filter};

    ghost made = { λ widening. widened_by widening.marks.now };

    ghost can_make = { λ widening. widening.low.now
        ≡ filter (λ mark. nat_lt mark 256) widening.marks.now };

    fn make(&self, cell: &Cell, other: Option<Word>) -> Option<Cell> {
        widened(cell, other, self.marks, self.low)
    }
}

/// The cells that both have, widened from the first ones.
#[tactic(auto, unfolding(entry_value::specs::Cells::widen_cells))]
pub(crate) fn widen(
    alloc: Global,
    held: &[Cell],
    new: &[Cell],
    marks: &[u16],
) -> Result<Vec<Cell>, AllocError>
    requires held { Ascend 0 held.now }
    requires new { Ascend 0 new.now }
    ensures { IfOk result (λ all. all.items ≡ the_cells.widen_cells held.now new.now marks.now) }
{
    let low = low_marks(alloc, marks)?;
    let low = low.as_slice();
    united(alloc, held, new, &Widening { marks, low })
}

/// Whether the word of the new cell is there, and within the one that is held.
fn is_found_within(new: Option<Word>, held: &Word) -> bool
    ensures { result ≡ the_cells.is_found_within new held.now }
{
    match new {
        Some(new) => new.within(held),
        None => false,
    }
}

/// Whether each held cell is a new one too, within there.
pub(crate) fn are_within(new: &[Cell], held: &[Cell]) -> bool
    requires new { Ascend 0 new.now }
    requires held { Ascend 0 held.now }
    ensures { result ≡ the_cells.are_within new.now held.now }
{
    let mut others = new;
    for cell in held {
        others = from_place(others, cell.place);
        if !is_found_within(first_at(others, cell.place, cell.size), &cell.word) {
            return false;
        }
    }
    true
}
