//! What instructions leave in registers and memory.

ghost use Rattle.std.specs.Prelude.{◌≡◌, ◌<◌, ℕ, IfSome, List, None, slice_set};
ghost use Rattle.msp430_chip.specs.declared.device.Device.{Device};
ghost use Rattle.msp430_chip.specs.Arithmetic as numbers;
ghost use Rattle.choosing.specs.Asking.{and_then, answer, ask};
ghost use Rattle.msp430_chip.specs.Operands as operands;
ghost use Rattle.msp430_chip.specs.Step as steps;
ghost use Rattle.choosing.specs.Choosing.{asked_as};
ghost use Rattle.msp430_emu.specs.Drafting.{left_by, shown};
ghost use Rattle.msp430_chip.specs.Registers.{AreRegisters};

use crate::arithmetic::with_made_flags;
use crate::effect::{Access, Effect, Store};
use crate::operands::with_register;
use choosing::Unused;
use msp430_chip::{Flags, Place};
use msp430_decode::Width;

/// A value written to a place.
pub(crate) fn put(registers: &[u16; 16], width: Width, place: Place, value: u16) -> Effect
    requires { value < numbers.modulus width }
    ensures value { (device : Device) (ram : List ℕ)
        → left_by device ram result ≡ steps.put device registers.now ram width place value }
    ensures form { AreRegisters registers.now → AreRegisters result.registers }
{
    match place {
        Place::InRegister(register) => Effect {
            registers: with_register(registers, register, value),
            store: None,
        },
        Place::InMemory(at) => Effect {
            registers: *registers,
            store: Some(Store { width, at, value }),
        },
        Place::Fixed(_) => Effect {
            registers: *registers,
            store: None,
        },
    }
}

/// A value written to a place, where it is to be written.
pub(crate) fn put_if(
    is_written: bool,
    registers: &[u16; 16],
    width: Width,
    place: Place,
    value: u16,
) -> Effect
    requires { value < numbers.modulus width }
    ensures value { (device : Device) (ram : List ℕ)
        → left_by device ram result ≡ steps.put_if is_written device registers.now ram width place value }
    ensures form { AreRegisters registers.now → AreRegisters result.registers }
{
    if is_written {
        put(registers, width, place, value)
    } else {
        Effect {
            registers: *registers,
            store: None,
        }
    }
}

/// The effect with flags in SR.
#[tactic(auto, using(msp430_chip::specs::Registers::registers_kept))]
pub(crate) fn with_status(flags: Option<Flags>, effect: Effect) -> Effect
    ensures value { (device : Device) (ram : List ℕ)
        → left_by device ram result ≡ steps.with_status flags (left_by device ram effect) }
    ensures form { AreRegisters effect.registers → AreRegisters result.registers }
{
    let mut registers = effect.registers;
    registers[2] = with_made_flags(registers[2], flags);
    Effect {
        registers,
        store: effect.store,
    }
}

/// The access of an operand in memory.
pub(crate) fn access_to(write: bool, width: Width, place: Place) -> Option<Access>
    ensures { (device : Device) (pc : ℕ) → shown device pc result ≡ operands.access_to device pc write width place }
{
    match place {
        Place::InMemory(at) => Some(Access { write, width, at }),
        _ => None,
    }
}

/// An SR that is left free, whole.
#[tactic(auto, using(msp430_chip::specs::Registers::registers_kept))]
pub(crate) fn free_status(registers: &[u16; 16], choices: &mut Unused) -> Option<Effect>
    ensures exact { (device : Device) (ram : List ℕ) → asked_as (left_by device ram) result choices.new ≡
        and_then (ask 512) (λ status. answer (left_by device ram (record { registers = slice_set registers.now 2 status; store = None }))) choices.old }
    ensures form { IfSome result (λ effect. AreRegisters registers.now → AreRegisters effect.registers) }
{
    let status = choices.ask(512)?;
    let mut registers = *registers;
    registers[2] = status as u16;
    Some(Effect {
        registers,
        store: None,
    })
}
