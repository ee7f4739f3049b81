//! What an instruction does.

ghost use Rattle.std.specs.Prelude.{◌≡◌, None, ◌≤◌};
ghost use Rattle.choosing.specs.Choosing.{asked_as};
ghost use Rattle.mcs51_chip.specs.Interrupts.{level_ended};
ghost use Rattle.mcs51_chip.specs.State.{IsChipState};
ghost use Rattle.mcs51_chip.specs.Step.{effect_of};
ghost use Rattle.mcs51_emu.specs.Listing.{effected};
ghost use Rattle.mcs51_emu.specs.Form.{unheld};

use crate::arithmetic::{carry_after, change, multiply};
use crate::done::{Accesses, NOTHING};
use crate::jumps::{absolute_target, branch, compare_jump, decrement_jump, holds, jump_on_bit};
use crate::moves::{
    accumulate, carry_bit, change_bit, decrement, direct_logic, divide, exchange, exchange_digit,
    increment, load, move_from_direct, move_immediate, move_to_direct, store,
};
use crate::registers::{carry_of, data_pointer, set_carry, set_data_pointer};
use crate::stack::{call, go_back, move_code, pop, push, read_external, write_external};
use choosing::Unused;
use mcs51_chip::ChipState;
use mcs51_decode::{Image, Instr};

/// RETI ends the highest level in service.
fn end_level(s: &mut ChipState)
    ensures value { s.new ≡ level_ended s.old }
    ensures unheld { unheld s.new ≤ unheld s.old }
{
    if s.serves_high {
        s.serves_high = false;
    } else {
        s.serves_low = false;
    }
}

/// An instruction, from a state whose PC is already the following address.
#[tactic(auto, unfolding(mcs51_chip::specs::Step::effect_of))]
pub(crate) fn perform(
    image: &Image,
    s: &mut ChipState,
    instr: Instr,
    choices: &mut Unused,
) -> Option<Accesses>
    requires { IsChipState s.old }
    ensures exact { asked_as (effected s.new) result choices.new ≡
        effect_of image.now s.old instr choices.old }
    ensures kept { result ≡ None → s.new ≡ s.old }
    ensures unheld { unheld s.new ≤ unheld s.old }
{
    match instr {
        Instr::Nop => Some(NOTHING),
        Instr::AbsoluteJump(target) => {
            s.pc = absolute_target(s.pc, target);
            Some(NOTHING)
        }
        Instr::LongJump(target) => {
            s.pc = target;
            Some(NOTHING)
        }
        Instr::JumpIndirect => {
            s.pc = data_pointer(s).wrapping_add(s.a as u16);
            Some(NOTHING)
        }
        Instr::JumpOn { condition, rel } => {
            let is_taken = holds(s, condition);
            branch(s, is_taken, rel);
            Some(NOTHING)
        }
        Instr::JumpOnBit { test, bit, rel } => jump_on_bit(s, test, bit, rel, choices),
        Instr::CompareJump { comparison, rel } => compare_jump(s, comparison, rel, choices),
        Instr::DecrementJump { counter, rel } => decrement_jump(s, counter, rel, choices),
        Instr::AbsoluteCall(target) => {
            let target = absolute_target(s.pc, target);
            Some(call(s, target))
        }
        Instr::LongCall(target) => Some(call(s, target)),
        Instr::Return => Some(go_back(s)),
        Instr::ReturnFromInterrupt => {
            let accesses = go_back(s);
            end_level(s);
            Some(accesses)
        }
        Instr::ChangeAccumulator(operation) => {
            change(s, operation);
            Some(NOTHING)
        }
        Instr::Increment(place) => increment(s, place, choices),
        Instr::Decrement(place) => decrement(s, place, choices),
        Instr::IncrementDataPointer => {
            let next = data_pointer(s).wrapping_add(1);
            set_data_pointer(s, next);
            Some(NOTHING)
        }
        Instr::Accumulate { operation, source } => accumulate(s, operation, source, choices),
        Instr::DirectLogic {
            operation,
            direct,
            mask,
        } => direct_logic(s, operation, direct, mask, choices),
        Instr::Multiply => {
            multiply(s);
            Some(NOTHING)
        }
        Instr::Divide => divide(s, choices),
        Instr::ChangeCarry(operation) => {
            let carry = carry_after(operation, carry_of(s));
            set_carry(s, carry);
            Some(NOTHING)
        }
        Instr::CarryBit { operation, bit } => carry_bit(s, operation, bit, choices),
        Instr::ChangeBit { operation, bit } => change_bit(s, operation, bit, choices),
        Instr::MoveImmediate { to, value } => Some(move_immediate(s, to, value)),
        Instr::MoveToDirect { to, from } => move_to_direct(s, to, from, choices),
        Instr::MoveFromDirect { to, from } => move_from_direct(s, to, from, choices),
        Instr::LoadDataPointer(value) => {
            set_data_pointer(s, value);
            Some(NOTHING)
        }
        Instr::Load(from) => load(s, from, choices),
        Instr::Store(to) => Some(store(s, to)),
        Instr::MoveCode(base) => move_code(image, s, base, choices),
        Instr::ReadExternal(external) => read_external(s, external, choices),
        Instr::WriteExternal(external) => write_external(s, external, choices),
        Instr::Push(direct) => push(s, direct, choices),
        Instr::Pop(direct) => pop(s, direct, choices),
        Instr::Exchange(with) => exchange(s, with, choices),
        Instr::ExchangeDigit(with) => exchange_digit(s, with, choices),
    }
}
