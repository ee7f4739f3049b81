//! RRC, SWPB, RRA and SXT.

ghost use Rattle.std.specs.Prelude.{◌≡◌, ◌<◌, ◌≤◌, ◌++◌, ℕ, IfSome, List, false, true};
ghost use Rattle.msp430_decode.specs.declared.instr.Instr.TheVariants as instr;
ghost use Rattle.msp430_decode.specs.declared.instr.Source.{Source as ASource};
ghost use Rattle.msp430_decode.specs.Table.{AreSingle};
ghost use Rattle.msp430_chip.specs.declared.device.Device.{Device};
ghost use Rattle.msp430_chip.specs.Arithmetic as numbers;
ghost use Rattle.msp430_chip.specs.Operands as operands;
ghost use Rattle.msp430_chip.specs.Step as steps;
ghost use Rattle.choosing.specs.Choosing.{asked_as};
ghost use Rattle.msp430_emu.specs.Drafting.{all_shown, drafted, left_by};
ghost use Rattle.msp430_emu.specs.Here.{Stands};
ghost use Rattle.msp430_chip.specs.Registers.{AreRegisters};

use crate::arithmetic::{single_result, single_sets_flags};
use crate::effect::{Accesses, Draft, Effect};
use crate::here::{Here, OneOperand};
use crate::operands::{
    behind, grown, has_free_bits, is_status, source_place, value_at, with_free_bits,
};
use crate::put::{access_to, free_status, put, with_status};
use choosing::Unused;
use msp430_chip::Place;
use msp430_decode::{SingleOperation, Width};

/// The result of the value x in its place, and the flags.
#[tactic(auto, using(msp430_chip::specs::Registers::registers_kept), unfolding(msp430_chip::specs::Step::single_left))]
fn single_left(
    registers: &[u16; 16],
    operation: SingleOperation,
    width: Width,
    place: Place,
    x: u16,
    carry: u16,
    choices: &mut Unused,
) -> Option<Effect>
    requires x { x < numbers.modulus width }
    requires carry { carry ≤ 1 }
    requires form { (operand : ASource) × AreSingle operation width operand }
    ensures exact { (device : Device) (ram : List ℕ) → asked_as (left_by device ram) result choices.new ≡
        steps.single_left device ram registers.now operation width place x carry choices.old }
    ensures form { IfSome result (λ effect. AreRegisters registers.now → AreRegisters effect.registers) }
{
    if single_sets_flags(operation) && is_status(place) {
        return free_status(registers, choices);
    }
    let (value, flags) = single_result(operation, width, x, carry, choices)?;
    Some(with_status(flags, put(registers, width, place, value)))
}

/// The accesses of an operand that is read and written.
fn single_accesses(width: Width, place: Place) -> Accesses
    ensures { (device : Device) (pc : ℕ) → all_shown device pc result ≡
        operands.access_to device pc false width place ++ operands.access_to device pc true width place }
{
    Accesses {
        first: None,
        second: access_to(false, width, place),
        third: access_to(true, width, place),
    }
}

/// An instruction on one operand that it reads and writes, of so many bytes.
#[tactic(auto, using(msp430_chip::specs::Registers::registers_kept), unfolding(msp430_chip::specs::Step::single))]
pub(crate) fn single(here: &Here, one: OneOperand, choices: &mut Unused) -> Option<Draft>
    requires here { Stands here.now }
    requires form { AreSingle one.operation one.width one.operand }
    ensures exact { asked_as (drafted here.now.layout.now here.now.s.now (instr.Single one.operation one.width one.operand)) result choices.new ≡
        steps.single here.now.layout.now here.now.s.now here.now.len one.operation one.width one.operand choices.old }
    ensures form { IfSome result (λ draft. AreRegisters draft.effect.registers) }
{
    let s = here.s;
    let mut before = s.registers;
    before[0] = behind(s, here.len);
    let place = source_place(s.registers[0], &before, one.operand);
    let registers = grown(&before, one.width, one.operand);
    let x = value_at(here, &before, one.width, place, choices)?;
    let bits = choices.ask_if(has_free_bits(one.width, place), 128)?;
    let x = with_free_bits(one.width, place, bits, x);
    let carry = s.registers[2] % 2;
    let effect = single_left(
        &registers,
        one.operation,
        one.width,
        place,
        x,
        carry,
        choices,
    )?;
    Some(Draft {
        accesses: single_accesses(one.width, place),
        effect,
    })
}
