//! Jumps.

ghost use Rattle.std.specs.Prelude.{◌≡◌, ℕ, List, None, Option, ◌≤◌};
ghost use Rattle.choosing.specs.Choosing.{asked_as};
ghost use Rattle.mcs51_decode.specs.declared.instr.Instr.TheVariants as instr;
ghost use Rattle.mcs51_decode.specs.Targets as targets;
ghost use Rattle.mcs51_chip.specs.State.{IsChipState};
ghost use Rattle.mcs51_chip.specs.Step as steps;
ghost use Rattle.mcs51_emu.specs.Listing.{Performs};
ghost use Rattle.mcs51_emu.specs.Form.{unheld};

use crate::bits::{bit_at, bit_of, with_bit};
use crate::done::{Accesses, NOTHING, one_read, pointer_read, read_and_write};
use crate::memory::{read, working_address, write};
use crate::registers::{carry_of, set_carry};
use choosing::Unused;
use mcs51_chip::{ChipState, bit_address, direct_address};
use mcs51_decode::{BitTest, Comparison, Condition, Counter, Working};

/// A relative jump from the following address, where it is taken.
pub(crate) fn branch(s: &mut ChipState, is_taken: bool, rel: u8)
    ensures value { s.new ≡ steps.branched is_taken rel s.old }
    ensures unheld { unheld s.new ≤ unheld s.old }
{
    if is_taken {
        s.pc = relative_target(s.pc, rel);
    }
}

/// The target of a relative jump.
fn relative_target(next: u16, rel: u8) -> u16
    ensures { result ≡ targets.relative_target next rel }
{
    let forward = next as u32 + rel as u32;
    if rel < 128 {
        (forward % 65536) as u16
    } else {
        ((forward + 65280) % 65536) as u16
    }
}

/// The target of AJMP or ACALL from the following address.
pub(crate) fn absolute_target(next: u16, target: u16) -> u16
    ensures { result ≡ targets.absolute_target next target }
{
    next / 2048 * 2048 + target % 2048
}

/// Whether a condition on the carry or the accumulator holds.
pub(crate) fn holds(s: &ChipState, condition: Condition) -> bool
    ensures { result ≡ steps.holds condition s.now }
{
    match condition {
        Condition::Carry => carry_of(s) == 1,
        Condition::NoCarry => carry_of(s) == 0,
        Condition::Zero => s.a == 0,
        Condition::NotZero => s.a != 0,
        Condition::Always => true,
    }
}

/// CJNE of two bytes.
fn compare(s: &mut ChipState, x: u8, y: u8, rel: u8)
    ensures value { s.new ≡ steps.compared x y rel s.old }
    ensures unheld { unheld s.new ≤ unheld s.old }
{
    set_carry(s, bit_of(x < y));
    branch(s, x != y, rel);
}

/// JBC, JB and JNB. JBC writes only where it jumps.
#[tactic(auto, unfolding(mcs51_chip::specs::Step::effect_of, mcs51_chip::specs::Step::jumping_on_bit, mcs51_chip::specs::Step::reading))]
pub(crate) fn jump_on_bit(
    s: &mut ChipState,
    test: BitTest,
    bit: u8,
    rel: u8,
    choices: &mut Unused,
) -> Option<Accesses>
    requires { IsChipState s.old }
    ensures exact { Performs (instr.JumpOnBit test bit rel) s.old choices.old
        result s.new choices.new }
    ensures kept { result ≡ None → s.new ≡ s.old }
    ensures unheld { unheld s.new ≤ unheld s.old }
{
    let address = bit_address(bit);
    let place = bit % 8;
    let x = read(s, address, choices)?;
    let is_set = bit_at(x, place) == 1;
    match test {
        BitTest::SetAndClear if is_set => {
            write(s, address, with_bit(x, place, 0));
            branch(s, true, rel);
            Some(read_and_write(None, address, address))
        }
        BitTest::SetAndClear => Some(one_read(None, address)),
        BitTest::Set => {
            branch(s, is_set, rel);
            Some(one_read(None, address))
        }
        BitTest::Clear => {
            branch(s, bit_at(x, place) == 0, rel);
            Some(one_read(None, address))
        }
    }
}

/// CJNE.
#[tactic(auto, unfolding(mcs51_chip::specs::Step::effect_of, mcs51_chip::specs::Step::reading))]
pub(crate) fn compare_jump(
    s: &mut ChipState,
    comparison: Comparison,
    rel: u8,
    choices: &mut Unused,
) -> Option<Accesses>
    requires { IsChipState s.old }
    ensures exact { Performs (instr.CompareJump comparison rel) s.old choices.old
        result s.new choices.new }
    ensures kept { result ≡ None → s.new ≡ s.old }
    ensures unheld { unheld s.new ≤ unheld s.old }
{
    match comparison {
        Comparison::AccumulatorImmediate(value) => {
            compare(s, s.a, value, rel);
            Some(NOTHING)
        }
        Comparison::AccumulatorDirect(direct) => {
            let address = direct_address(direct);
            let x = read(s, address, choices)?;
            compare(s, s.a, x, rel);
            Some(one_read(None, address))
        }
        Comparison::WorkingImmediate { operand, value } => {
            let accesses = one_read(pointer_read(s, operand), working_address(s, operand));
            let x = read(s, working_address(s, operand), choices)?;
            compare(s, x, value, rel);
            Some(accesses)
        }
    }
}

/// DJNZ.
#[tactic(auto, unfolding(mcs51_chip::specs::Step::effect_of, mcs51_chip::specs::Step::updating))]
pub(crate) fn decrement_jump(
    s: &mut ChipState,
    counter: Counter,
    rel: u8,
    choices: &mut Unused,
) -> Option<Accesses>
    requires { IsChipState s.old }
    ensures exact { Performs (instr.DecrementJump counter rel) s.old choices.old
        result s.new choices.new }
    ensures kept { result ≡ None → s.new ≡ s.old }
    ensures unheld { unheld s.new ≤ unheld s.old }
{
    let address = match counter {
        Counter::Direct(direct) => direct_address(direct),
        Counter::Register(register) => working_address(s, Working::Register(register)),
    };
    let x = read(s, address, choices)?;
    let lowered = x.wrapping_sub(1);
    write(s, address, lowered);
    branch(s, lowered != 0, rel);
    Some(read_and_write(None, address, address))
}
