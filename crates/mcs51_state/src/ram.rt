//! Writes to RAM.

ghost use Rattle.std.specs.Prelude.{◌≡◌, ◌<◌, ℕ, OnOk};
ghost use Rattle.value_set.specs.Form.{Has, IsNormalRun, members};
ghost use Rattle.value_set.specs.Joining as joins;
ghost use Rattle.mcs51_state.specs.Writing as writing;

use crate::fact::{CarryFact, Compared, LinearFact};
use crate::state::State;
use entry_value::{Byte, Cells, Word, bytes_stay_bytes};
use irq_frames::Ranges;
use no_memory::Memory;
use value_bits::w16;
use value_set::{Form, Progression, Vs8, set_laws};

/// A fact of the accumulator, unless its byte of RAM may be written.
fn linear_beside(at: &Vs8, fact: Option<LinearFact>) -> Option<LinearFact>
    ensures { result ≡ writing.linear_beside at.now fact }
{
    match fact {
        Some(fact) if !is_in(at, fact.place) => Some(fact),
        _ => None,
    }
}

/// Whether an address is one of some.
fn is_in(at: &Vs8, address: u8) -> bool
    ensures { result ≡ joins.is_in 256 at.now address }
{
    set_laws();
    at.has(address)
}

/// Whether the byte that CJNE compared may be written by a write to RAM.
fn is_compared_in(at: &Vs8, compared: Compared) -> bool
    ensures { result ≡ writing.is_compared_in at.now compared }
{
    match compared {
        Compared::Accumulator => false,
        Compared::Ram(place) => is_in(at, place),
    }
}

/// A fact of CY, unless its byte may be written by a write to RAM.
fn carry_beside(at: &Vs8, fact: Option<CarryFact>) -> Option<CarryFact>
    ensures { result ≡ writing.carry_unless (writing.is_compared_in at.now) fact }
{
    match fact {
        Some(fact) if !is_compared_in(at, fact.compared) => Some(fact),
        _ => None,
    }
}

/// A byte as a cell holds it.
pub fn word_of(byte: &Byte) -> Word
    ensures value { result ≡ writing.word_of_byte byte.now }
    ensures small { (n : ℕ) → Has 65536 result.set n → n < 256 }
{
    bytes_stay_bytes();
    byte.set.form();
    Word {
        set: w16::pair(&byte.set, &Vs8::one(0)),
        entry: byte.entry,
    }
}

/// A cell at an address that may be written or not.
fn join_cell<M: Cells>(cells: &mut M, at: u8, word: &Word) -> Result<(), Memory>
    requires { (n : ℕ) → Has 65536 word.now.set n → n < 256 }
    ensures { OnOk result (M.map cells.new ≡ writing.cell_joined (M.map cells.old) at word.now) }
{
    bytes_stay_bytes();
    let held = cells.read(at as u16, 1);
    held.set.form();
    word.set.form();
    cells.write_one(at as u16, 1, held.join(word))
}

/// Cells at addresses of which one is written.
fn join_cells<M: Cells>(cells: &mut M, at: &Vs8, word: &Word) -> Result<(), Memory>
    requires { (n : ℕ) → Has 65536 word.now.set n → n < 256 }
    ensures { OnOk result (M.map cells.new ≡ writing.cells_joined (M.map cells.old) (members 256 at.now) word.now) }
{
    for index in 0..at.count() {
        join_cell(cells, at.nth(index), word)?;
    }
    Ok(())
}

/// Cells behind a write at one of some addresses.
fn write_cells<M: Cells>(cells: &mut M, at: &Vs8, word: &Word) -> Result<(), Memory>
    requires { (n : ℕ) → Has 65536 word.now.set n → n < 256 }
    ensures { OnOk result (M.map cells.new ≡ writing.cells_written (M.map cells.old) (members 256 at.now) word.now) }
{
    if at.count() == 1 {
        return cells.write_one(at.nth(0) as u16, 1, *word);
    }
    join_cells(cells, at, word)
}

/// Touches each address of a list.
fn touch_each(at: &[u16], touched: &mut Ranges) -> Result<(), Memory>
    ensures { OnOk result (touched.new ≡ writing.touch_each at.now touched.old) }
{
    for address in at {
        touched.add(*address, *address)?;
    }
    Ok(())
}

/// Touches a run from its first address to the last: all RAM, where it goes round.
fn touch_run(run: &Progression, touched: &mut Ranges) -> Result<(), Memory>
    requires { IsNormalRun 256 run.now.base run.now.stride run.now.count }
    ensures { OnOk result (touched.new ≡ writing.touched_behind (Form.Run run.now) touched.old) }
{
    let last = run.base as u32 + (run.count - 1) * run.stride as u32;
    if last >= 256 {
        return touched.add(0, 255);
    }
    touched.add(run.base, last as u16)
}

/// Touches the addresses of a set.
fn touch_behind(at: &Vs8, touched: &mut Ranges) -> Result<(), Memory>
    ensures { OnOk result (touched.new ≡ writing.touched_behind at.now touched.old) }
{
    match at.form() {
        Form::Values(values) => touch_each(values.as_slice(), touched),
        Form::Run(run) => touch_run(&run, touched),
    }
}

/// Writes a byte at one of the addresses of a set. In an interrupt's frame they are touched.
#[tactic(auto, unfolding(crate::specs::Writing::ram_written))]
pub(crate) fn write_ram<M: Cells>(
    framed: bool,
    state: &mut State<M>,
    at: &Vs8,
    byte: &Byte,
) -> Result<(), Memory>
    ensures { OnOk result (state.new ≡ writing.ram_written framed at.now byte.now state.old) }
{
    let word = word_of(byte);
    state.linear_fact = linear_beside(at, state.linear_fact);
    state.carry_fact = carry_beside(at, state.carry_fact);
    write_cells(&mut state.cells, at, &word)?;
    if framed {
        touch_behind(at, &mut state.touched)?;
    }
    Ok(())
}
