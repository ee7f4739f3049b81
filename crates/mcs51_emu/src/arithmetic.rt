//! Results and flags.

ghost use Rattle.std.specs.Prelude.{◌≡◌, ◌<◌, ◌≤◌, ◌-◌};
ghost use Rattle.mcs51_chip.specs.Arithmetic as numbers;
ghost use Rattle.mcs51_chip.specs.Registers as states;
ghost use Rattle.mcs51_decode.specs.declared.instr.AccumulatorOperation.TheVariants as operations;
ghost use Rattle.chip_numbers.specs.Numbers.{high_adjusted, low_adjusted, shifted_left, shifted_right};
ghost use Rattle.mcs51_emu.specs.Form.{unheld};

use crate::bits::bit_of;
use crate::registers::{carry_of, half_carry_of, set_carry, set_flags};
use mcs51_chip::ChipState;
use mcs51_decode::{
    AccumulatorOperation, BitOperation, CarryByBit, CarryOperation, Logic, Operation,
};

/// Whether the bits below a power of two carry.
fn carries(power: u16, x: u8, y: u8, carry: u8) -> bool
    requires { 0 < power }
    ensures { result ≡ numbers.carries power x y carry }
{
    x as u32 % power as u32 + y as u32 % power as u32 + carry as u32 >= power as u32
}

/// Whether they borrow.
fn borrows(power: u16, x: u8, y: u8, carry: u8) -> bool
    requires { 0 < power }
    ensures { result ≡ numbers.borrows power x y carry }
{
    (x as u32 % power as u32) < (y as u32 % power as u32 + carry as u32)
}

/// Whether two flags differ.
fn differ(one: bool, other: bool) -> bool
    ensures { result ≡ numbers.differ one other }
{
    if one { !other } else { other }
}

/// ADD and ADDC.
fn add(s: &mut ChipState, x: u8, carry: u8)
    requires { carry ≤ 1 }
    ensures value { s.new ≡ numbers.added x carry s.old }
    ensures unheld { unheld s.new ≤ unheld s.old }
{
    let a = s.a;
    let out = carries(256, a, x, carry);
    let half = carries(16, a, x, carry);
    let overflow = differ(out, carries(128, a, x, carry));
    set_flags(s, bit_of(out), bit_of(half), bit_of(overflow));
    s.a = ((a as u16 + x as u16 + carry as u16) % 256) as u8;
}

/// SUBB.
fn subtract(s: &mut ChipState, x: u8, carry: u8)
    requires { carry ≤ 1 }
    ensures value { s.new ≡ numbers.subtracted x carry s.old }
    ensures unheld { unheld s.new ≤ unheld s.old }
{
    let a = s.a;
    let out = borrows(256, a, x, carry);
    let half = borrows(16, a, x, carry);
    let overflow = differ(out, borrows(128, a, x, carry));
    set_flags(s, bit_of(out), bit_of(half), bit_of(overflow));
    s.a = ((a as u16 + 256 - x as u16 - carry as u16) % 256) as u8;
}

/// An operation on the accumulator and a byte.
pub(crate) fn accumulate(s: &mut ChipState, operation: Operation, x: u8)
    ensures value { s.new ≡ numbers.accumulated operation x s.old }
    ensures unheld { unheld s.new ≤ unheld s.old }
{
    match operation {
        Operation::Add => add(s, x, 0),
        Operation::Addc => add(s, x, carry_of(s)),
        Operation::Subb => subtract(s, x, carry_of(s)),
        Operation::Orl => s.a = s.a | x,
        Operation::Anl => s.a = s.a & x,
        Operation::Xrl => s.a = s.a ^ x,
    }
}

/// ORL, ANL and XRL of a direct byte.
pub(crate) fn masked(operation: Logic, x: u8, mask: u8) -> u8
    ensures { result ≡ numbers.masked operation x mask }
{
    match operation {
        Logic::Orl => x | mask,
        Logic::Anl => x & mask,
        Logic::Xrl => x ^ mask,
    }
}

/// What DA makes of the low digit.
fn low_adjusted_of(a: u8, half: u8) -> u16
    ensures value { result ≡ low_adjusted a half }
    ensures below { result < 262 }
{
    if a % 16 > 9 || half == 1 {
        a as u16 + 6
    } else {
        a as u16
    }
}

/// And then of the high digit.
fn high_adjusted_of(low: u16, carry: u8) -> u16
    requires { low < 262 }
    ensures value { result ≡ high_adjusted low carry }
    ensures below { result < 358 }
{
    if low % 256 / 16 > 9 || carry == 1 || low >= 256 {
        low + 96
    } else {
        low
    }
}

/// DA A.
fn adjust(s: &mut ChipState)
    ensures value { s.new ≡ numbers.changed operations.Da s.old }
    ensures unheld { unheld s.new ≤ unheld s.old }
{
    let carry = carry_of(s);
    let sum = high_adjusted_of(low_adjusted_of(s.a, half_carry_of(s)), carry);
    set_carry(s, bit_of(carry == 1 || sum >= 256));
    s.a = (sum % 256) as u8;
}

/// A rotation to the right, of which this bit comes in at the top.
fn rotate_right(s: &mut ChipState, bit: u8)
    requires { bit ≤ 1 }
    ensures value { s.new ≡ states.with_accumulator (shifted_right 7 s.old.a bit) s.old }
    ensures unheld { unheld s.new ≤ unheld s.old }
{
    s.a = s.a / 2 + bit * 128;
}

/// A rotation to the left, of which this bit comes in at the bottom.
fn rotate_left(s: &mut ChipState, bit: u8)
    requires { bit ≤ 1 }
    ensures value { s.new ≡ states.with_accumulator (shifted_left 7 s.old.a bit) s.old }
    ensures unheld { unheld s.new ≤ unheld s.old }
{
    s.a = s.a % 128 * 2 + bit;
}

/// An operation on the accumulator alone.
pub(crate) fn change(s: &mut ChipState, operation: AccumulatorOperation)
    ensures value { s.new ≡ numbers.changed operation s.old }
    ensures unheld { unheld s.new ≤ unheld s.old }
{
    let a = s.a;
    let carry = carry_of(s);
    match operation {
        AccumulatorOperation::Rr => rotate_right(s, a % 2),
        AccumulatorOperation::Rrc => {
            set_carry(s, a % 2);
            rotate_right(s, carry);
        }
        AccumulatorOperation::Rl => rotate_left(s, a / 128),
        AccumulatorOperation::Rlc => {
            set_carry(s, a / 128);
            rotate_left(s, carry);
        }
        AccumulatorOperation::Swap => s.a = a % 16 * 16 + a / 16,
        AccumulatorOperation::Da => adjust(s),
        AccumulatorOperation::Clr => s.a = 0,
        AccumulatorOperation::Cpl => s.a = 255 - a,
    }
}

/// MUL AB.
pub(crate) fn multiply(s: &mut ChipState)
    ensures value { s.new ≡ numbers.multiplied s.old }
    ensures unheld { unheld s.new ≤ unheld s.old }
{
    let product = s.a as u16 * s.b as u16;
    let half = half_carry_of(s);
    set_flags(s, 0, half, bit_of(product > 255));
    s.a = (product % 256) as u8;
    s.b = (product / 256) as u8;
}

/// DIV AB where B isn't 0.
pub(crate) fn divide(s: &mut ChipState)
    requires { 0 < s.old.b }
    ensures value { s.new ≡ numbers.divided s.old }
    ensures unheld { unheld s.new ≤ unheld s.old }
{
    let half = half_carry_of(s);
    set_flags(s, 0, half, 0);
    let quotient = s.a / s.b;
    let remainder = s.a % s.b;
    s.a = quotient;
    s.b = remainder;
}

/// DIV AB where B is 0.
pub(crate) fn divide_by_zero(s: &mut ChipState, a: u8, b: u8)
    ensures value { s.new ≡ numbers.divided_by_zero a b s.old }
    ensures unheld { unheld s.new ≤ unheld s.old }
{
    let half = half_carry_of(s);
    set_flags(s, 0, half, 1);
    s.a = a;
    s.b = b;
}

/// CY behind an operation on it alone.
pub(crate) fn carry_after(operation: CarryOperation, carry: u8) -> u8
    requires { carry ≤ 1 }
    ensures value { result ≡ numbers.carry_after operation carry }
    ensures below { result ≤ 1 }
{
    match operation {
        CarryOperation::Cpl => 1 - carry,
        CarryOperation::Clr => 0,
        CarryOperation::Setb => 1,
    }
}

/// CY behind an operation with a bit.
pub(crate) fn carry_with(operation: CarryByBit, carry: u8, bit: u8) -> u8
    requires carry { carry ≤ 1 }
    requires bit { bit ≤ 1 }
    ensures value { result ≡ numbers.carry_with operation carry bit }
    ensures below { result ≤ 1 }
{
    match operation {
        CarryByBit::Orl => carry | bit,
        CarryByBit::Anl => carry & bit,
        CarryByBit::OrlComplement => carry | (1 - bit),
        CarryByBit::AnlComplement => carry & (1 - bit),
        CarryByBit::Mov => bit,
    }
}

/// A bit behind an operation.
pub(crate) fn bit_after(operation: BitOperation, carry: u8, bit: u8) -> u8
    requires carry { carry ≤ 1 }
    requires bit { bit ≤ 1 }
    ensures value { result ≡ numbers.bit_after operation carry bit }
    ensures below { result ≤ 1 }
{
    match operation {
        BitOperation::MovCarry => carry,
        BitOperation::Cpl => 1 - bit,
        BitOperation::Clr => 0,
        BitOperation::Setb => 1,
    }
}
