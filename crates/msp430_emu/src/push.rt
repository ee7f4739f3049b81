//! PUSH and CALL.

ghost use Rattle.std.specs.Prelude.{◌≡◌, ◌<◌, ◌≤◌, ◌++◌, ℕ, IfSome, List, false, slice_index, true};
ghost use Rattle.msp430_decode.specs.declared.instr.Instr.TheVariants as instr;
ghost use Rattle.msp430_decode.specs.declared.instr.Width.TheVariants as widths;
ghost use Rattle.msp430_chip.specs.declared.device.Device.{Device};
ghost use Rattle.msp430_chip.specs.declared.place.Place.TheVariants as places;
ghost use Rattle.msp430_chip.specs.Arithmetic as numbers;
ghost use Rattle.msp430_chip.specs.Operands as operands;
ghost use Rattle.msp430_chip.specs.Step as steps;
ghost use Rattle.choosing.specs.Choosing.{asked, asked_as};
ghost use Rattle.msp430_emu.specs.Drafting.{all_shown, drafted, left_by};
ghost use Rattle.msp430_emu.specs.Here.{Stands};
ghost use Rattle.msp430_chip.specs.Registers.{AreRegisters};

use crate::effect::{Accesses, Draft, Effect};
use crate::here::{Here, OneOperand};
use crate::memory::even;
use crate::operands::{behind, grown, has_free_bits, source_place, value_at, with_free_bits};
use crate::put::{access_to, put};
use choosing::Unused;
use msp430_chip::Place;
use msp430_decode::{Register, SingleOperation, Source, Width};

/// Whether an operand is formed by SP, without growth: before or after SP is lowered.
fn is_formed_by_stack(operand: Source) -> bool
    ensures { result ≡ steps.is_formed_by_stack operand }
{
    match operand {
        Source::Register(Register::Sp)
        | Source::Indexed {
            register: Register::Sp,
            ..
        }
        | Source::Indirect(Register::Sp) => true,
        _ => false,
    }
}

/// SP below a word.
pub(crate) fn lowered(sp: u16) -> u16
    ensures { result ≡ steps.lowered sp }
{
    sp.wrapping_sub(2)
}

/// The registers that form an operand: SP is lowered by option 1.
fn with_lowered(option: u32, registers: &[u16; 16]) -> [u16; 16]
    ensures value { result ≡ steps.with_lowered option registers.now }
    ensures status { slice_index result 2 ≡ slice_index registers.now 2 }
{
    let mut after = *registers;
    if option == 1 {
        after[1] = lowered(after[1]);
    }
    after
}

/// The word that is pushed for a value: PUSH.B leaves its high byte free.
fn pushed_word(width: Width, x: u16, choices: &mut Unused) -> Option<u16>
    requires { x < numbers.modulus width }
    ensures exact { asked result choices.new ≡ steps.pushed_word width x choices.old }
{
    match width {
        Width::Word => Some(x),
        Width::Byte => {
            let high = choices.ask(256)?;
            Some(x + 256 * high as u16)
        }
    }
}

/// A word pushed below SP.
#[tactic(auto, using(msp430_chip::specs::Registers::registers_kept))]
fn pushed(registers: &[u16; 16], word: u16) -> Effect
    ensures value { (device : Device) (ram : List ℕ)
        → left_by device ram result ≡ steps.pushed device registers.now ram word }
    ensures form { AreRegisters registers.now → AreRegisters result.registers }
{
    let mut after = *registers;
    let sp = lowered(after[1]);
    after[1] = sp;
    put(&after, Width::Word, Place::InMemory(sp), word)
}

/// PUSH pushes the value, and CALL the address behind it and goes to the value.
#[tactic(auto, using(msp430_chip::specs::Registers::registers_kept), unfolding(msp430_chip::specs::Step::push_left))]
fn push_left(
    registers: &[u16; 16],
    operation: SingleOperation,
    width: Width,
    x: u16,
    next: u16,
    choices: &mut Unused,
) -> Option<Effect>
    requires { x < numbers.modulus width }
    ensures exact { (device : Device) (ram : List ℕ) → asked_as (left_by device ram) result choices.new ≡
        steps.push_left device ram registers.now operation width x next choices.old }
    ensures form { IfSome result (λ effect. AreRegisters registers.now → AreRegisters effect.registers) }
{
    match operation {
        SingleOperation::Call => {
            let mut after = *registers;
            after[0] = even(x);
            Some(pushed(&after, next))
        }
        _ => {
            let word = pushed_word(width, x, choices)?;
            Some(pushed(registers, word))
        }
    }
}

/// The accesses of a push: the operand is read, and a word is written below SP.
fn push_accesses(width: Width, place: Place, sp: u16) -> Accesses
    ensures { (device : Device) (pc : ℕ) → all_shown device pc result ≡ operands.access_to device pc false width place
        ++ operands.access_to device pc true widths.Word (places.InMemory (steps.lowered sp)) }
{
    Accesses {
        first: None,
        second: access_to(false, width, place),
        third: access_to(true, Width::Word, Place::InMemory(lowered(sp))),
    }
}

/// PUSH or CALL, of so many bytes.
#[tactic(auto, using(msp430_chip::specs::Registers::registers_kept), unfolding(msp430_chip::specs::Step::push))]
pub(crate) fn push(here: &Here, one: OneOperand, choices: &mut Unused) -> Option<Draft>
    requires here { Stands here.now }
    ensures exact { asked_as (drafted here.now.layout.now here.now.s.now (instr.Single one.operation one.width one.operand)) result choices.new ≡
        steps.push here.now.layout.now here.now.s.now here.now.len one.operation one.width one.operand choices.old }
    ensures form { IfSome result (λ draft. AreRegisters draft.effect.registers) }
{
    let s = here.s;
    let next = behind(s, here.len);
    let mut before = s.registers;
    before[0] = next;
    let option = choices.ask_if(is_formed_by_stack(one.operand), 2)?;
    let forming = with_lowered(option, &before);
    let place = source_place(s.registers[0], &forming, one.operand);
    let registers = grown(&before, one.width, one.operand);
    let x = value_at(here, &forming, one.width, place, choices)?;
    let bits = choices.ask_if(has_free_bits(one.width, place), 128)?;
    let x = with_free_bits(one.width, place, bits, x);
    let effect = push_left(&registers, one.operation, one.width, x, next, choices)?;
    Some(Draft {
        accesses: push_accesses(one.width, place, registers[1]),
        effect,
    })
}
