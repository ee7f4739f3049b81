//! Where operands stand.

ghost use Rattle.std.specs.Prelude.{◌≡◌, ◌+◌, ◌≤◌, ℕ};
ghost use Rattle.value_set.specs.Form.{Has};
ghost use Rattle.msp430_chip.specs.Memory as chip;
ghost use Rattle.msp430_chip.specs.Memory.{HasRam};
ghost use Rattle.msp430_alu.specs.Memory as memory;
ghost use Rattle.msp430_alu.specs.Operands as operands;

use crate::reach::Reach;
use crate::registers::{even_parts, register_word};
use entry_value::Cells;
use msp430_chip::Device;
use msp430_decode::{Destination, Register, Source, Width};
use msp430_results::instruction_laws;
use msp430_state::State;
use value_set::Vs16;

/// Memory at a register plus a number.
fn beside<M: Cells>(state: &State<M>, counted: &Vs16, register: Register, offset: u16) -> Vs16
    ensures { result ≡ operands.beside state.now counted.now register offset }
{
    register_word(state, counted, register)
        .set
        .add(&Vs16::one(offset))
}

/// Where a source may stand, for an instruction at an address, where PC counts so.
pub fn source_reach<M: Cells>(pc: u16, state: &State<M>, counted: &Vs16, source: Source) -> Reach
    ensures { result ≡ operands.source_reach pc state.now counted.now source }
{
    match source {
        Source::Register(register) => Reach::InRegister(register),
        Source::Indexed { register, offset } => {
            Reach::InMemory(beside(state, counted, register, offset))
        }
        Source::Indirect(register) | Source::IndirectIncrement(register) => {
            Reach::InMemory(register_word(state, counted, register).set)
        }
        Source::Immediate(value) => Reach::Fixed(value),
        Source::Symbolic(offset) => {
            Reach::InMemory(Vs16::one(pc.wrapping_add(2).wrapping_add(offset)))
        }
        Source::Absolute(address) => Reach::InMemory(Vs16::one(address)),
        Source::Constant(constant) => Reach::Fixed(constant.value()),
    }
}

/// Where a destination may stand, for an instruction of so many bytes at an address. Its extension word is the last one.
pub fn destination_reach<M: Cells>(
    pc: u16,
    len: u8,
    state: &State<M>,
    counted: &Vs16,
    destination: Destination,
) -> Reach
    requires { 2 ≤ len }
    ensures { result ≡ operands.destination_reach pc len state.now counted.now destination }
{
    match destination {
        Destination::Register(register) => Reach::InRegister(register),
        Destination::Indexed { register, offset } => {
            Reach::InMemory(beside(state, counted, register, offset))
        }
        Destination::Symbolic(offset) => {
            let address = (pc as u32 + len as u32 - 2 + offset as u32) % 65536;
            Reach::InMemory(Vs16::one(address as u16))
        }
        Destination::Absolute(address) => Reach::InMemory(Vs16::one(address)),
    }
}

/// The addresses of a set, with those of the mirror as addresses of RAM.
fn canonical(device: &Device, set: &Vs16) -> Vs16
    requires { HasRam device.now }
    ensures { result ≡ memory.canonical device.now set.now }
{
    let Some((first, last)) = device.ram.mirror else {
        return *set;
    };
    let len = last as u32 + 1 - first as u32;
    let by = Vs16::one(device.ram.lo.wrapping_sub(first));
    let outside = set.cut(last.wrapping_add(1), 65536 - len);
    match (outside, set.cut(first, len)) {
        (Some(outside), Some(inside)) => outside.join(&inside.add(&by)),
        (Some(outside), None) => outside,
        (None, Some(inside)) => inside.add(&by),
        (None, None) => *set,
    }
}

/// Where accesses at some addresses are made: bit 0 of a word's address doesn't count. All of their bytes are in memory.
pub fn located(device: &Device, width: Width, set: &Vs16) -> Vs16
    requires { HasRam device.now }
    ensures value { result ≡ memory.located device.now width set.now }
    ensures fits { (v : ℕ) → Has 65536 result v → v + chip.size_of width ≤ 65536 }
{
    instruction_laws();
    let _form = set.form();
    match width {
        Width::Word => canonical(device, &even_parts(set)),
        Width::Byte => canonical(device, set),
    }
}
