//! RAM as it goes on.

ghost use Rattle.std.specs.Prelude.{◌≡◌, ◌<◌, ℕ, IfOk};
ghost use Rattle.value_set.specs.Form.{Has};
ghost use Rattle.mcs51_resume.specs.Resume as the_resumed;
ghost use Rattle.mcs51_resume.specs.Resume.{resumed_cells};

use crate::bytes::{masked_by, place_byte};
use entry_value::{Cell, Cells, Word};
use irq_frames::{Resumes, cells_behind};
use mcs51_state::{State, word_of};
use no_memory::Memory;
use std::alloc::Global;

/// The word of a cell of the exit, as it goes on. It is a byte where that of the exit is one.
fn resume_word<M: Cells>(framed: bool, at: &State<M>, pc: u16, exit: &Word) -> Word
    ensures value { result ≡ the_resumed.cell_word_by (the_resumed.place_byte framed at.now pc) exit.now exit.now.entry }
    ensures small { ((n : ℕ) → Has 65536 exit.now.set n → n < 256) → (n : ℕ) → Has 65536 result.set n → n < 256 }
{
    match &exit.entry {
        None => *exit,
        Some(entry) => word_of(&masked_by(entry, &place_byte(framed, at, pc, entry.place))),
    }
}

/// Cells of the exit go on by what is known of the state that an interrupt suspended at an address.
#[derive(Drop)]
struct BySuspended<'a, M: Cells> {
    framed: bool,
    at: &'a State<M>,
    pc: u16,
}

impl<'a, M: Cells> Resumes for BySuspended<'a, M> {
    ghost use Rattle.mcs51_resume.specs.Resume.{place_byte, resumed_cell_word};

    ghost words = { λ by. resumed_cell_word (place_byte by.framed by.at.now by.pc) };

    fn word(&self, cell: &Cell) -> Word {
        resume_word(self.framed, self.at, self.pc, &cell.word)
    }
}

/// RAM as it goes on.
pub(crate) fn resume_cells<M: Cells>(
    alloc: Global,
    framed: bool,
    at: &State<M>,
    pc: u16,
    exit: &State<M>,
) -> Result<M, Memory>
    ensures { IfOk result (λ cells. M.map cells
        ≡ resumed_cells (the_resumed.place_byte framed at.now pc) at.now.cells exit.now.cells exit.now.touched) }
{
    let resumes = BySuspended { framed, at, pc };
    cells_behind(alloc, &at.cells, &resumes, &exit.cells, &exit.touched)
}
