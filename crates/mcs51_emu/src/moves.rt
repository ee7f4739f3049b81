//! Instructions on the accumulator and on bytes.

ghost use Rattle.std.specs.Prelude.{◌≡◌, ℕ, List, None, Option, Some, ◌≤◌};
ghost use Rattle.choosing.specs.Choosing.{asked_as};
ghost use Rattle.mcs51_decode.specs.declared.instr.Instr.TheVariants as instr;
ghost use Rattle.mcs51_chip.specs.State.{IsChipState};
ghost use Rattle.mcs51_emu.specs.Listing.{Performs};
ghost use Rattle.mcs51_emu.specs.Form.{unheld};

use crate::arithmetic::{
    accumulate as accumulate_byte, bit_after, carry_with, divide as divide_by, divide_by_zero,
    masked,
};
use crate::bits::{bit_at, with_bit};
use crate::done::{
    Accesses, NOTHING, address_read, one_read, one_write, pointer_read, read_and_write,
};
use crate::memory::{address_of, read, working_address, write};
use crate::registers::{carry_of, set_carry};
use choosing::Unused;
use mcs51_chip::{ChipState, bit_address, direct_address};
use mcs51_decode::{
    BitOperation, CarryByBit, Logic, Mask, Memory, Operation, Place, Pointer, Source, Working,
};

/// INC.
#[tactic(auto, unfolding(mcs51_chip::specs::Step::effect_of, mcs51_chip::specs::Step::updating))]
pub(crate) fn increment(s: &mut ChipState, place: Place, choices: &mut Unused) -> Option<Accesses>
    requires { IsChipState s.old }
    ensures exact { Performs (instr.Increment place) s.old choices.old result s.new choices.new }
    ensures kept { result ≡ None → s.new ≡ s.old }
    ensures unheld { unheld s.new ≤ unheld s.old }
{
    match place {
        Place::Accumulator => {
            s.a = s.a.wrapping_add(1);
            Some(NOTHING)
        }
        Place::Memory(memory) => {
            let before = address_read(s, memory);
            let address = address_of(s, memory);
            let x = read(s, address, choices)?;
            write(s, address, x.wrapping_add(1));
            Some(read_and_write(before, address, address))
        }
    }
}

/// DEC.
#[tactic(auto, unfolding(mcs51_chip::specs::Step::effect_of, mcs51_chip::specs::Step::updating))]
pub(crate) fn decrement(s: &mut ChipState, place: Place, choices: &mut Unused) -> Option<Accesses>
    requires { IsChipState s.old }
    ensures exact { Performs (instr.Decrement place) s.old choices.old result s.new choices.new }
    ensures kept { result ≡ None → s.new ≡ s.old }
    ensures unheld { unheld s.new ≤ unheld s.old }
{
    match place {
        Place::Accumulator => {
            s.a = s.a.wrapping_sub(1);
            Some(NOTHING)
        }
        Place::Memory(memory) => {
            let before = address_read(s, memory);
            let address = address_of(s, memory);
            let x = read(s, address, choices)?;
            write(s, address, x.wrapping_sub(1));
            Some(read_and_write(before, address, address))
        }
    }
}

/// ADD, ADDC, SUBB, ORL, ANL and XRL of A.
#[tactic(auto, unfolding(mcs51_chip::specs::Step::effect_of, mcs51_chip::specs::Step::reading))]
pub(crate) fn accumulate(
    s: &mut ChipState,
    operation: Operation,
    source: Source,
    choices: &mut Unused,
) -> Option<Accesses>
    requires { IsChipState s.old }
    ensures exact { Performs (instr.Accumulate operation source) s.old choices.old
        result s.new choices.new }
    ensures kept { result ≡ None → s.new ≡ s.old }
    ensures unheld { unheld s.new ≤ unheld s.old }
{
    match source {
        Source::Immediate(value) => {
            accumulate_byte(s, operation, value);
            Some(NOTHING)
        }
        Source::Memory(memory) => {
            let accesses = one_read(address_read(s, memory), address_of(s, memory));
            let x = read(s, address_of(s, memory), choices)?;
            accumulate_byte(s, operation, x);
            Some(accesses)
        }
    }
}

/// ORL, ANL and XRL of a direct byte.
#[tactic(auto, unfolding(mcs51_chip::specs::Step::effect_of, mcs51_chip::specs::Step::updating))]
pub(crate) fn direct_logic(
    s: &mut ChipState,
    operation: Logic,
    direct: u8,
    mask: Mask,
    choices: &mut Unused,
) -> Option<Accesses>
    requires { IsChipState s.old }
    ensures exact { Performs (instr.DirectLogic operation direct mask) s.old choices.old
        result s.new choices.new }
    ensures kept { result ≡ None → s.new ≡ s.old }
    ensures unheld { unheld s.new ≤ unheld s.old }
{
    let mask = match mask {
        Mask::Accumulator => s.a,
        Mask::Immediate(value) => value,
    };
    let address = direct_address(direct);
    let x = read(s, address, choices)?;
    write(s, address, masked(operation, x, mask));
    Some(read_and_write(None, address, address))
}

/// DIV AB.
#[tactic(auto, unfolding(mcs51_chip::specs::Step::effect_of, mcs51_chip::specs::Step::dividing))]
pub(crate) fn divide(s: &mut ChipState, choices: &mut Unused) -> Option<Accesses>
    requires { IsChipState s.old }
    ensures exact { Performs instr.Divide s.old choices.old result s.new choices.new }
    ensures kept { result ≡ None → s.new ≡ s.old }
    ensures unheld { unheld s.new ≤ unheld s.old }
{
    if s.b == 0 {
        let a = choices.ask(256)? as u8;
        let b = choices.ask(256)? as u8;
        divide_by_zero(s, a, b);
    } else {
        divide_by(s);
    }
    Some(NOTHING)
}

/// ORL, ANL and MOV of C with a bit.
#[tactic(auto, unfolding(mcs51_chip::specs::Step::effect_of, mcs51_chip::specs::Step::reading))]
pub(crate) fn carry_bit(
    s: &mut ChipState,
    operation: CarryByBit,
    bit: u8,
    choices: &mut Unused,
) -> Option<Accesses>
    requires { IsChipState s.old }
    ensures exact { Performs (instr.CarryBit operation bit) s.old choices.old
        result s.new choices.new }
    ensures kept { result ≡ None → s.new ≡ s.old }
    ensures unheld { unheld s.new ≤ unheld s.old }
{
    let address = bit_address(bit);
    let x = read(s, address, choices)?;
    let carry = carry_with(operation, carry_of(s), bit_at(x, bit % 8));
    set_carry(s, carry);
    Some(one_read(None, address))
}

/// MOV, CPL, CLR and SETB of a bit.
#[tactic(auto, unfolding(mcs51_chip::specs::Step::effect_of, mcs51_chip::specs::Step::updating))]
pub(crate) fn change_bit(
    s: &mut ChipState,
    operation: BitOperation,
    bit: u8,
    choices: &mut Unused,
) -> Option<Accesses>
    requires { IsChipState s.old }
    ensures exact { Performs (instr.ChangeBit operation bit) s.old choices.old
        result s.new choices.new }
    ensures kept { result ≡ None → s.new ≡ s.old }
    ensures unheld { unheld s.new ≤ unheld s.old }
{
    let address = bit_address(bit);
    let place = bit % 8;
    let x = read(s, address, choices)?;
    let after = bit_after(operation, carry_of(s), bit_at(x, place));
    write(s, address, with_bit(x, place, after));
    Some(read_and_write(None, address, address))
}

/// MOV of a byte to memory or A.
#[tactic(auto, unfolding(mcs51_chip::specs::Step::effect_of))]
pub(crate) fn move_immediate(s: &mut ChipState, place: Place, value: u8) -> Accesses
    ensures exact { (choices : List ℕ) →
        Performs (instr.MoveImmediate place value) s.old choices (Some result) s.new choices }
    ensures unheld { unheld s.new ≤ unheld s.old }
{
    match place {
        Place::Accumulator => {
            s.a = value;
            NOTHING
        }
        Place::Memory(memory) => {
            let before = address_read(s, memory);
            let address = address_of(s, memory);
            write(s, address, value);
            one_write(before, address)
        }
    }
}

/// MOV to a direct byte.
#[tactic(auto, unfolding(mcs51_chip::specs::Step::effect_of, mcs51_chip::specs::Step::moving))]
pub(crate) fn move_to_direct(
    s: &mut ChipState,
    to: u8,
    from: Memory,
    choices: &mut Unused,
) -> Option<Accesses>
    requires { IsChipState s.old }
    ensures exact { Performs (instr.MoveToDirect to from) s.old choices.old
        result s.new choices.new }
    ensures kept { result ≡ None → s.new ≡ s.old }
    ensures unheld { unheld s.new ≤ unheld s.old }
{
    let before = address_read(s, from);
    let source = address_of(s, from);
    let target = direct_address(to);
    let x = read(s, source, choices)?;
    write(s, target, x);
    Some(read_and_write(before, source, target))
}

/// MOV from a direct byte.
#[tactic(auto, unfolding(mcs51_chip::specs::Step::effect_of, mcs51_chip::specs::Step::moving))]
pub(crate) fn move_from_direct(
    s: &mut ChipState,
    to: Working,
    from: u8,
    choices: &mut Unused,
) -> Option<Accesses>
    requires { IsChipState s.old }
    ensures exact { Performs (instr.MoveFromDirect to from) s.old choices.old
        result s.new choices.new }
    ensures kept { result ≡ None → s.new ≡ s.old }
    ensures unheld { unheld s.new ≤ unheld s.old }
{
    let before = pointer_read(s, to);
    let source = direct_address(from);
    let target = working_address(s, to);
    let x = read(s, source, choices)?;
    write(s, target, x);
    Some(read_and_write(before, source, target))
}

/// MOV to A.
#[tactic(auto, unfolding(mcs51_chip::specs::Step::effect_of, mcs51_chip::specs::Step::reading))]
pub(crate) fn load(s: &mut ChipState, from: Memory, choices: &mut Unused) -> Option<Accesses>
    requires { IsChipState s.old }
    ensures exact { Performs (instr.Load from) s.old choices.old result s.new choices.new }
    ensures kept { result ≡ None → s.new ≡ s.old }
    ensures unheld { unheld s.new ≤ unheld s.old }
{
    let accesses = one_read(address_read(s, from), address_of(s, from));
    let x = read(s, address_of(s, from), choices)?;
    s.a = x;
    Some(accesses)
}

/// MOV of A.
#[tactic(auto, unfolding(mcs51_chip::specs::Step::effect_of))]
pub(crate) fn store(s: &mut ChipState, to: Memory) -> Accesses
    ensures exact { (choices : List ℕ) →
        Performs (instr.Store to) s.old choices (Some result) s.new choices }
    ensures unheld { unheld s.new ≤ unheld s.old }
{
    let before = address_read(s, to);
    let address = address_of(s, to);
    write(s, address, s.a);
    one_write(before, address)
}

/// XCH.
#[tactic(auto, unfolding(mcs51_chip::specs::Step::effect_of, mcs51_chip::specs::Step::updating))]
pub(crate) fn exchange(s: &mut ChipState, with: Memory, choices: &mut Unused) -> Option<Accesses>
    requires { IsChipState s.old }
    ensures exact { Performs (instr.Exchange with) s.old choices.old result s.new choices.new }
    ensures kept { result ≡ None → s.new ≡ s.old }
    ensures unheld { unheld s.new ≤ unheld s.old }
{
    let before = address_read(s, with);
    let address = address_of(s, with);
    let x = read(s, address, choices)?;
    write(s, address, s.a);
    s.a = x;
    Some(read_and_write(before, address, address))
}

/// XCHD.
#[tactic(auto, unfolding(mcs51_chip::specs::Step::effect_of, mcs51_chip::specs::Step::updating))]
pub(crate) fn exchange_digit(
    s: &mut ChipState,
    with: Pointer,
    choices: &mut Unused,
) -> Option<Accesses>
    requires { IsChipState s.old }
    ensures exact { Performs (instr.ExchangeDigit with) s.old choices.old result s.new choices.new }
    ensures kept { result ≡ None → s.new ≡ s.old }
    ensures unheld { unheld s.new ≤ unheld s.old }
{
    let before = pointer_read(s, Working::Indirect(with));
    let address = working_address(s, Working::Indirect(with));
    let a = s.a;
    let x = read(s, address, choices)?;
    write(s, address, x / 16 * 16 + a % 16);
    s.a = a / 16 * 16 + x % 16;
    Some(read_and_write(before, address, address))
}
