//! Reads of RAM and of the program.

ghost use Rattle.std.specs.Prelude.{◌≡◌, ℕ, ◌+◌, ◌≤◌, drop};
ghost use Rattle.value_set.specs.Form.{Has, members};
ghost use Rattle.entry_value.specs.Cells as the_cells;
ghost use Rattle.msp430_chip.specs.Memory as chip;
ghost use Rattle.msp430_chip.specs.Memory.{HasRam};
ghost use Rattle.msp430_alu.specs.Memory as memory;
ghost use Rattle.msp430_alu.specs.Operands as operands;

use crate::operands::located;
use crate::reach::Reach;
use crate::registers::{plain, register_word};
use entry_value::{Cells, Word};
use msp430_chip::Device;
use msp430_decode::Width;
use msp430_state::State;
use value_set::Vs16;

/// How many bytes an access has.
pub(crate) fn size_of(width: Width) -> u8
    ensures { result ≡ chip.size_of width }
{
    match width {
        Width::Word => 2,
        Width::Byte => 1,
    }
}

/// A number of which nothing is known.
pub(crate) fn unknown(width: Width) -> Word
    ensures { result ≡ the_cells.unknown (chip.size_of width) }
{
    match width {
        Width::Word => plain(Vs16::any()),
        Width::Byte => match Vs16::run(0, 1, 256) {
            Some(bytes) => plain(bytes),
            None => unreachable!(),
        },
    }
}

/// What stands in the program, or else any number.
fn program_word(device: &Device, width: Width, at: u16) -> Word
    requires { at + chip.size_of width ≤ 65536 }
    ensures { result ≡ memory.program_word device.now width at }
{
    let low = device.image.byte(at);
    match width {
        Width::Byte => match low {
            Some(low) => plain(Vs16::one(low as u16)),
            None => unknown(Width::Byte),
        },
        Width::Word => match (low, device.image.byte(at + 1)) {
            (Some(low), Some(high)) => plain(Vs16::one(low as u16 + 256 * high as u16)),
            _ => unknown(Width::Word),
        },
    }
}

/// What may be read at one address, that of a word being even.
pub fn read_one<M: Cells>(device: &Device, state: &State<M>, width: Width, at: u16) -> Word
    requires { at + chip.size_of width ≤ 65536 }
    ensures { result ≡ memory.read_one device.now state.now width at }
{
    if device.ram.lo <= at && at <= device.ram.hi {
        return state.cells.read(at, size_of(width));
    }
    program_word(device, width, at)
}

/// The sets that are read from the second address on, joined with the first one.
fn joined<M: Cells>(device: &Device, state: &State<M>, width: Width, at: &Vs16, first: Vs16) -> Vs16
    requires { (v : ℕ) → Has 65536 at.now v → v + chip.size_of width ≤ 65536 }
    ensures { result ≡ memory.read_each device.now state.now width first (drop 1 (members 65536 at.now)) }
{
    let mut set = first;
    for place in 1..at.count() {
        set = set.join(&read_one(device, state, width, at.nth(place)).set);
    }
    set
}

/// What may be read at an address of a set, those of a word being even. Of more than 256 addresses nothing is known, and a
/// relation is read from one address alone.
pub fn read_known<M: Cells>(device: &Device, state: &State<M>, width: Width, at: &Vs16) -> Word
    requires { (v : ℕ) → Has 65536 at.now v → v + chip.size_of width ≤ 65536 }
    ensures { result ≡ memory.read_known device.now state.now width at.now }
{
    let count = at.count();
    if count > 256 {
        return unknown(width);
    }
    let first = read_one(device, state, width, at.nth(0));
    if count == 1 {
        return first;
    }
    plain(joined(device, state, width, at, first.set))
}

/// What an operand may hold as a word, with the bits 9 to 15 of SR any.
pub fn known_operand<M: Cells>(
    device: &Device,
    state: &State<M>,
    counted: &Vs16,
    width: Width,
    reach: &Reach,
) -> Word
    requires { HasRam device.now }
    ensures { result ≡ operands.operand_word device.now state.now counted.now width reach.now }
{
    match reach {
        Reach::InRegister(register) => register_word(state, counted, *register),
        Reach::InMemory(set) => read_known(device, state, width, &located(device, width, set)),
        Reach::Fixed(value) => plain(Vs16::one(*value)),
    }
}
