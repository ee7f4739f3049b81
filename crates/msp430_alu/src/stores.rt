//! Stores to memory.

ghost use Rattle.std.specs.Prelude.{◌≡◌, ℕ, ◌<◌, ◌≤◌, OnOk};
ghost use Rattle.value_set.specs.Form.{Has, IsNormalRun};
ghost use Rattle.msp430_chip.specs.Memory as chip;
ghost use Rattle.msp430_chip.specs.Memory.{HasRam};
ghost use Rattle.msp430_alu.specs.Memory as memory;

use crate::reading::size_of;
use entry_value::{Cells, Word};
use irq_frames::Ranges;
use msp430_chip::Device;
use msp430_decode::Width;
use msp430_state::State;
use no_memory::Memory;
use value_set::{Form, Progression, Vs16};

/// Touches the part of a range that lies in RAM.
fn touch(lo: u16, hi: u16, first: u16, last: u32, touched: &mut Ranges) -> Result<(), Memory>
    requires ram { lo ≤ hi }
    requires range { first ≤ last }
    ensures { OnOk result (touched.new ≡ memory.touch lo hi first last touched.old) }
{
    if last < lo as u32 || hi < first {
        return Ok(());
    }
    touched.add(lo.max(first), (hi as u32).min(last) as u16)
}

/// Touches the bytes of a store at each of some addresses.
fn touch_each(lo: u16, hi: u16, size: u8, at: &[u16], touched: &mut Ranges) -> Result<(), Memory>
    requires ram { lo ≤ hi }
    requires some { 1 ≤ size }
    ensures { OnOk result (touched.new ≡ memory.touch_each lo hi size at.now touched.old) }
{
    for first in at {
        touch(lo, hi, *first, *first as u32 + size as u32 - 1, touched)?;
    }
    Ok(())
}

/// Touches the bytes of a store at the members of a run: all RAM, where the run goes round.
fn touch_run(
    lo: u16,
    hi: u16,
    size: u8,
    run: &Progression,
    touched: &mut Ranges,
) -> Result<(), Memory>
    requires ram { lo ≤ hi }
    requires some { 1 ≤ size }
    requires normal { IsNormalRun 65536 run.now.base run.now.stride run.now.count }
    ensures { OnOk result (touched.new ≡ memory.touched_behind lo hi size (Form.Run run.now) touched.old) }
{
    let last = run.base as u32 + (run.count - 1) * run.stride as u32;
    if last >= 65536 {
        return touched.add(lo, hi);
    }
    touch(lo, hi, run.base, last + size as u32 - 1, touched)
}

/// Touches the bytes of a store at one of the addresses of a set.
fn touch_behind(lo: u16, hi: u16, size: u8, at: &Vs16, touched: &mut Ranges) -> Result<(), Memory>
    requires ram { lo ≤ hi }
    requires some { 1 ≤ size }
    ensures { OnOk result (touched.new ≡ memory.touched_behind lo hi size at.now touched.old) }
{
    match at.form() {
        Form::Values(values) => touch_each(lo, hi, size, values.as_slice(), touched),
        Form::Run(run) => touch_run(lo, hi, size, &run, touched),
    }
}

/// Stores a word at one of the addresses of a set, those of a word being even. In an interrupt's frame the bytes are
/// touched. Behind an error the state is of no use.
pub fn store<M: Cells>(
    device: &Device,
    framed: bool,
    state: &mut State<M>,
    width: Width,
    at: &Vs16,
    word: Word,
) -> Result<(), Memory>
    requires ram { HasRam device.now }
    requires byte { chip.size_of width ≡ 1 → (v : ℕ) → Has 65536 word.set v → v < 256 }
    ensures { OnOk result (state.new ≡ memory.with_store device.now framed state.old width at.now word) }
{
    let size = size_of(width);
    state.cells.write_any(at, size, word)?;
    if framed {
        touch_behind(device.ram.lo, device.ram.hi, size, at, &mut state.touched)?;
    }
    Ok(())
}
