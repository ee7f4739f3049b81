//! Registers, and where operands stand (SLAU049, chapter 3, "Addressing Modes").

ghost use Rattle.std.specs.Prelude.{◌≡◌, ◌%◌, ◌<◌, ◌≤◌, IfSome, IsTrue, slice_index};
ghost use Rattle.msp430_chip.specs.Arithmetic as numbers;
ghost use Rattle.msp430_chip.specs.Operands as operands;
ghost use Rattle.msp430_chip.specs.Step as steps;
ghost use Rattle.choosing.specs.Choosing.{asked};
ghost use Rattle.msp430_emu.specs.Here.{Stands};
ghost use Rattle.msp430_chip.specs.Registers.{AreRegisters};

use crate::here::Here;
use crate::memory::{even, read};
use choosing::Unused;
use msp430_chip::{ChipState, Place};
use msp430_decode::{Destination, Register, Source, Width};

/// The address behind an instruction of so many bytes.
pub(crate) fn behind(s: &ChipState, len: u8) -> u16
    ensures { result ≡ steps.behind s.now len }
{
    s.registers[0].wrapping_add(len as u16)
}

/// The value of a register.
pub(crate) fn value_in(registers: &[u16; 16], register: Register) -> u16
    ensures { result ≡ operands.value_in registers.now register }
{
    registers[register.number() as usize]
}

/// The registers with a value in one of them: PC and SP lose bit 0, SR holds its bits 8 to 0, and R3 nothing.
#[tactic(auto, using(msp430_chip::specs::Registers::registers_kept))]
pub(crate) fn with_register(registers: &[u16; 16], register: Register, value: u16) -> [u16; 16]
    ensures value { result ≡ operands.with_register registers.now register value }
    ensures form { AreRegisters registers.now → AreRegisters result }
{
    let mut after = *registers;
    match register {
        Register::Pc => after[0] = even(value),
        Register::Sp => after[1] = even(value),
        Register::Sr => after[2] = value % 512,
        Register::R3 => {}
        _ => after[register.number() as usize] = value,
    }
    after
}

/// By how much `@Rn+` grows its register: SP by 2 for bytes as well.
fn growth(width: Width, register: Register) -> u16
    ensures { result ≡ operands.growth width register }
{
    match (width, register) {
        (Width::Word, _) | (Width::Byte, Register::Sp) => 2,
        _ => 1,
    }
}

/// The registers behind an operand: `@Rn+` has grown its register.
pub(crate) fn grown(registers: &[u16; 16], width: Width, source: Source) -> [u16; 16]
    ensures value { result ≡ operands.grown registers.now width source }
    ensures form { AreRegisters registers.now → AreRegisters result }
{
    match source {
        Source::IndirectIncrement(register) => with_register(
            registers,
            register,
            value_in(registers, register).wrapping_add(growth(width, register)),
        ),
        _ => *registers,
    }
}

/// Where a source stands, for an instruction at an address.
pub(crate) fn source_place(pc: u16, registers: &[u16; 16], source: Source) -> Place
    ensures { result ≡ operands.source_place pc registers.now source }
{
    match source {
        Source::Register(register) => Place::InRegister(register),
        Source::Indexed { register, offset } => {
            Place::InMemory(value_in(registers, register).wrapping_add(offset))
        }
        Source::Indirect(register) | Source::IndirectIncrement(register) => {
            Place::InMemory(value_in(registers, register))
        }
        Source::Immediate(value) => Place::Fixed(value),
        Source::Symbolic(offset) => Place::InMemory(pc.wrapping_add(2).wrapping_add(offset)),
        Source::Absolute(address) => Place::InMemory(address),
        Source::Constant(constant) => Place::Fixed(constant.value()),
    }
}

/// Where a destination stands, for an instruction of so many bytes at an address. Its extension word is the last one.
pub(crate) fn destination_place(
    pc: u16,
    len: u8,
    registers: &[u16; 16],
    destination: Destination,
) -> Place
    requires { 2 ≤ len }
    ensures { result ≡ operands.destination_place pc len registers.now destination }
{
    match destination {
        Destination::Register(register) => Place::InRegister(register),
        Destination::Indexed { register, offset } => {
            Place::InMemory(value_in(registers, register).wrapping_add(offset))
        }
        Destination::Symbolic(offset) => {
            Place::InMemory(((pc as u32 + len as u32 - 2 + offset as u32) % 65536) as u16)
        }
        Destination::Absolute(address) => Place::InMemory(address),
    }
}

/// A word, or its low byte.
fn low_part(width: Width, word: u16) -> u16
    ensures value { result ≡ word % numbers.modulus width }
    ensures below { result < numbers.modulus width }
{
    match width {
        Width::Word => word,
        Width::Byte => word % 256,
    }
}

/// Whether a place is SR.
pub(crate) fn is_status(place: Place) -> bool
    ensures { result ≡ operands.is_status place }
{
    match place {
        Place::InRegister(Register::Sr) => true,
        _ => false,
    }
}

/// Whether an operand shows the bits of SR that nothing holds.
pub(crate) fn has_free_bits(width: Width, place: Place) -> bool
    ensures { result ≡ operands.has_free_bits width place }
{
    match width {
        Width::Word => is_status(place),
        Width::Byte => false,
    }
}

/// The value of an operand, with the bits 9 to 15 of SR where it shows them.
pub(crate) fn with_free_bits(width: Width, place: Place, bits: u32, value: u16) -> u16
    requires bits { bits < 128 }
    requires held { IsTrue (operands.has_free_bits width place) → value < 512 }
    requires value { value < numbers.modulus width }
    ensures value { result ≡ operands.with_free_bits width place bits value }
    ensures below { result < numbers.modulus width }
{
    if has_free_bits(width, place) {
        (value as u32 + 512 * bits) as u16
    } else {
        value
    }
}

/// What stands at a place, but for the bits of SR that nothing holds.
pub(crate) fn value_at(
    here: &Here,
    registers: &[u16; 16],
    width: Width,
    place: Place,
    choices: &mut Unused,
) -> Option<u16>
    requires here { Stands here.now }
    requires status { slice_index registers.now 2 < 512 }
    ensures exact { asked result choices.new ≡
        operands.value_at here.now.layout.now here.now.s.now.ram registers.now width place choices.old }
    ensures below { IfSome result (λ value. value < numbers.modulus width) }
    ensures held { IfSome result (λ value. IsTrue (operands.has_free_bits width place) → value < 512) }
{
    match place {
        Place::InRegister(register) => Some(low_part(width, value_in(registers, register))),
        Place::InMemory(address) => read(here.layout, &here.s.ram, width, address, choices),
        Place::Fixed(value) => Some(low_part(width, value)),
    }
}
