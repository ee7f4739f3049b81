//! Instructions on two operands.

ghost use Rattle.std.specs.Prelude.{◌≡◌, ◌%◌, ◌<◌, ◌≤◌, ℕ, IfSome, IsTrue, List, None, [], false, slice_index, true};
ghost use Rattle.choosing.specs.Asking.{continued};
ghost use Rattle.msp430_decode.specs.declared.instr.Instr.TheVariants as instr;
ghost use Rattle.msp430_chip.specs.declared.device.Device.{Device};
ghost use Rattle.msp430_chip.specs.Arithmetic as numbers;
ghost use Rattle.msp430_chip.specs.Operands as operands;
ghost use Rattle.msp430_chip.specs.State as states;
ghost use Rattle.msp430_chip.specs.Step as steps;
ghost use Rattle.choosing.specs.Choosing.{asked, asked_as};
ghost use Rattle.msp430_emu.specs.Drafting.{all_shown, double_behind, drafted, left_by, shown};
ghost use Rattle.msp430_emu.specs.Here.{Stands};
ghost use Rattle.msp430_chip.specs.Registers.{AreRegisters};

use crate::arithmetic::{reads_destination, result_of, sets_flags, writes_result};
use crate::effect::{Access, Accesses, Draft, Effect};
use crate::here::{Here, TwoOperands};
use crate::operands::{
    behind, destination_place, grown, has_free_bits, is_status, source_place, value_at,
    with_free_bits,
};
use crate::put::{access_to, free_status, put_if, with_status};
use choosing::Unused;
use msp430_chip::{ChipState, Place};
use msp430_decode::{Destination, Operation, Register, Source, Width};

/// The operands of an instruction, and the registers behind them.
#[derive(Clone, Copy)]
pub(crate) struct Operands {
    pub registers: [u16; 16],
    pub origin: Place,
    pub place: Place,
    pub x: u16,
    pub y: u16,
}

/// Whether PC as a source may be one of two addresses.
fn reads_counter(source: Source, destination: Destination) -> bool
    ensures { result ≡ steps.reads_counter source destination }
{
    match (source, destination) {
        (Source::Register(Register::Pc), Destination::Register(_)) => false,
        (Source::Register(Register::Pc), _) => true,
        _ => false,
    }
}

/// What PC is as an operand.
fn counter(
    s: &ChipState,
    len: u8,
    source: Source,
    destination: Destination,
    choices: &mut Unused,
) -> Option<u16>
    requires pc { states.register_of s.now 0 % 2 ≡ 0 }
    requires len { len % 2 ≡ 0 }
    ensures exact { asked result choices.new ≡ steps.counter s.now len source destination choices.old }
    ensures even { IfSome result (λ counted. counted % 2 ≡ 0) }
{
    if reads_counter(source, destination) {
        let option = choices.ask(2)?;
        return Some(s.registers[0].wrapping_add(2 + 2 * option as u16));
    }
    Some(behind(s, len))
}

/// What the destination held, where the operation reads it.
fn destination_value(
    here: &Here,
    registers: &[u16; 16],
    place: Place,
    two: TwoOperands,
    choices: &mut Unused,
) -> Option<u16>
    requires here { Stands here.now }
    requires status { slice_index registers.now 2 < 512 }
    ensures exact { asked result choices.new ≡
        steps.destination_value here.now.layout.now here.now.s.now.ram registers.now two.operation two.width place choices.old }
    ensures below { IfSome result (λ value. value < numbers.modulus two.width) }
    ensures held { IfSome result (λ value. IsTrue (operands.has_free_bits two.width place) → value < 512) }
{
    if reads_destination(two.operation) {
        value_at(here, registers, two.width, place, choices)
    } else {
        Some(0)
    }
}

/// The bits 9 to 15 of SR, where an operand shows them.
fn status_bits(
    operation: Operation,
    width: Width,
    origin: Place,
    place: Place,
    choices: &mut Unused,
) -> Option<u32>
    ensures exact { asked result choices.new ≡ steps.status_bits operation width origin place choices.old }
    ensures below { IfSome result (λ bits. bits < 128) }
{
    let is_shown = has_free_bits(width, origin)
        || (reads_destination(operation) && has_free_bits(width, place));
    choices.ask_if(is_shown, 128)
}

/// The accesses of an instruction: the source is read, then the destination, and then it is written.
fn double_accesses(operation: Operation, width: Width, origin: Place, place: Place) -> Accesses
    ensures { (device : Device) (pc : ℕ) → all_shown device pc result ≡
        steps.double_accesses device pc operation width origin place }
{
    Accesses {
        first: access_to(false, width, origin),
        second: access_if(reads_destination(operation), false, width, place),
        third: access_if(writes_result(operation), true, width, place),
    }
}

/// An access of an operand in memory in some cases.
fn access_if(is_made: bool, write: bool, width: Width, place: Place) -> Option<Access>
    ensures made { (device : Device) (pc : ℕ) → is_made ≡ true →
        shown device pc result ≡ operands.access_to device pc write width place }
    ensures none { (device : Device) (pc : ℕ) → is_made ≡ false → shown device pc result ≡ [] }
{
    if is_made {
        access_to(write, width, place)
    } else {
        None
    }
}

/// The result of the values x and y in its place, and the flags.
#[tactic(auto, using(msp430_chip::specs::Registers::registers_kept), unfolding(msp430_chip::specs::Step::double_left))]
fn double_left(
    operation: Operation,
    width: Width,
    operands: Operands,
    carry: u16,
    choices: &mut Unused,
) -> Option<Effect>
    requires x { operands.x < numbers.modulus width }
    requires y { operands.y < numbers.modulus width }
    requires carry { carry ≤ 1 }
    ensures exact { (device : Device) (ram : List ℕ) → asked_as (left_by device ram) result choices.new ≡
        steps.double_left device ram operands.registers operation width operands.place operands.x operands.y carry choices.old }
    ensures form { IfSome result (λ effect. AreRegisters operands.registers → AreRegisters effect.registers) }
{
    let registers = &operands.registers;
    if sets_flags(operation) && is_status(operands.place) {
        return free_status(registers, choices);
    }
    let (value, flags) = result_of(operation, width, operands.x, operands.y, carry, choices)?;
    let effect = put_if(
        writes_result(operation),
        registers,
        width,
        operands.place,
        value,
    );
    Some(with_status(flags, effect))
}

/// The operands of an instruction, and the registers behind them.
#[tactic(auto, using(msp430_chip::specs::Registers::registers_kept), unfolding(msp430_chip::specs::Step::double))]
fn double_operands(here: &Here, two: TwoOperands, choices: &mut Unused) -> Option<Operands>
    requires here { Stands here.now }
    ensures exact { continued (double_behind here.now.layout.now here.now.s.now two.operation two.width two.source two.destination) (asked result choices.new) ≡
        steps.double here.now.layout.now here.now.s.now here.now.len two.operation two.width two.source two.destination choices.old }
    ensures x { IfSome result (λ operands. operands.x < numbers.modulus two.width) }
    ensures y { IfSome result (λ operands. operands.y < numbers.modulus two.width) }
    ensures form { IfSome result (λ operands. AreRegisters operands.registers) }
{
    let s = here.s;
    let width = two.width;
    let pc = s.registers[0];
    let mut before = s.registers;
    before[0] = counter(s, here.len, two.source, two.destination, choices)?;
    let origin = source_place(pc, &before, two.source);
    let mut registers = grown(&before, width, two.source);
    let place = destination_place(pc, here.len, &registers, two.destination);
    let x = value_at(here, &before, width, origin, choices)?;
    let y = destination_value(here, &registers, place, two, choices)?;
    let bits = status_bits(two.operation, width, origin, place, choices)?;
    registers[0] = behind(s, here.len);
    Some(Operands {
        registers,
        origin,
        place,
        x: with_free_bits(width, origin, bits, x),
        y: with_free_bits(width, place, bits, y),
    })
}

/// An instruction on two operands.
pub(crate) fn double(here: &Here, two: TwoOperands, choices: &mut Unused) -> Option<Draft>
    requires here { Stands here.now }
    ensures exact { asked_as (drafted here.now.layout.now here.now.s.now (instr.Double two.operation two.width two.source two.destination)) result choices.new ≡
        steps.double here.now.layout.now here.now.s.now here.now.len two.operation two.width two.source two.destination choices.old }
    ensures form { IfSome result (λ draft. AreRegisters draft.effect.registers) }
{
    let operands = double_operands(here, two, choices)?;
    let carry = here.s.registers[2] % 2;
    let effect = double_left(two.operation, two.width, operands, carry, choices)?;
    Some(Draft {
        accesses: double_accesses(two.operation, two.width, operands.origin, operands.place),
        effect,
    })
}
