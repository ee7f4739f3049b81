//! What the places of the suspended state held.

ghost use Rattle.std.specs.Prelude.{◌≡◌, ◌-◌, map};
ghost use Rattle.std.specs.List.{slice_index_or};
ghost use Rattle.entry_value.specs.Cells as the_cells;
ghost use Rattle.irq_frames.specs.Resuming.{resumed_word};
ghost use Rattle.msp430_resume.specs.Resume.{held_word, place_word};

use entry_value::{Cells, Word, unknown};
use irq_frames::{Places, resume_by};
use msp430_alu::register_word as operand_of;
use msp430_decode::Register;
use msp430_state::State;
use value_set::Vs16;

/// PC, SR and R4 to R15, where an interrupt came.
#[derive(Drop)]
pub(crate) struct Held {
    pub(crate) pc: u16,
    pub(crate) status: Word,
    pub(crate) registers: [Word; 12],
}

/// One of R4 to R15, by its number.
pub(crate) fn register_word(registers: &[Word; 12], register: u16) -> Word
    ensures { result ≡ slice_index_or registers.now (register - 4) (the_cells.unknown 2) }
{
    match registers.get(register.saturating_sub(4) as usize) {
        Some(word) => *word,
        None => unknown(2),
    }
}

impl Places for Held {
    ghost use Rattle.msp430_resume.specs.Resume.{held_word};

    ghost words = { λ held. held_word held.pc held.status held.registers };

    fn word(&self, place: u16) -> Word {
        if place == 0 {
            Word {
                set: Vs16::one(self.pc),
                entry: None,
            }
        } else if place == 2 {
            self.status
        } else {
            register_word(&self.registers, place)
        }
    }
}

/// The same words once more.
fn copy_all(words: &[Word; 12]) -> [Word; 12]
    ensures { result ≡ words.now }
{
    let mut all = [unknown(2); 12];
    all.copy_from_slice(words.as_slice());
    all
}

/// The places of what is known where an interrupt came at an address.
pub(crate) fn places_of<M: Cells>(at: &State<M>, pc: u16) -> Held
    ensures { held_word result.pc result.status result.registers ≡ place_word at.now pc }
{
    Held {
        pc,
        status: operand_of(at, &Vs16::one(pc), Register::Sr),
        registers: copy_all(&at.registers),
    }
}

/// R4 to R15 of the exit, as they go on.
pub(crate) fn resume_all(held: &Held, exit: &[Word; 12]) -> [Word; 12]
    ensures { result ≡ map (resumed_word (held_word held.now.pc held.now.status held.now.registers)) exit.now }
{
    let mut words = [unknown(2); 12];
    for i in 0..12 {
        words[i] = resume_by(held, &exit[i]);
    }
    words
}
