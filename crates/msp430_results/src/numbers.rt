//! The flags that operations on numbers set.

ghost use Rattle.std.specs.Prelude.{◌≡◌, ◌+◌, ◌==◌, ◌%◌, ◌^◌, ◌<◌, ◌≤◌, false};
ghost use Rattle.std.specs.Int.{bit_at};
ghost use Rattle.chip_numbers.specs.Numbers as numbers;
ghost use Rattle.msp430_chip.specs.Arithmetic as arithmetic;
ghost use Rattle.msp430_results.specs.Results as results;

use msp430_chip::Flags;
use msp430_decode::Width;

/// How many numbers a width has.
pub(crate) fn modulus(width: Width) -> u32
    ensures value { result ≡ arithmetic.modulus width }
    ensures some { 256 ≤ result }
    ensures most { result ≤ 65536 }
{
    match width {
        Width::Word => 65536,
        Width::Byte => 256,
    }
}

/// Each bit of a number is the other one.
pub(crate) fn complement(width: Width, x: u16) -> u16
    requires { x < arithmetic.modulus width }
    ensures value { result ≡ arithmetic.complement width x }
    ensures below { result < arithmetic.modulus width }
{
    (modulus(width) - 1 - x as u32) as u16
}

/// Whether the top bit is set.
fn is_negative(width: Width, x: u32) -> bool
    ensures { result ≡ arithmetic.is_negative width x }
{
    match width {
        Width::Word => x >= 0x8000,
        Width::Byte => x >= 0x80,
    }
}

/// Z and N are those of the result.
pub(crate) fn flags_of(width: Width, value: u32, carry: bool, overflow: bool) -> Flags
    ensures { result ≡ arithmetic.flags_of width value carry overflow }
{
    Flags {
        carry,
        zero: value == 0,
        negative: is_negative(width, value),
        overflow,
    }
}

fn overflows(x: bool, y: bool, sum: bool) -> bool
    ensures { result ≡ arithmetic.overflows x y sum }
{
    (x && y && !sum) || (!x && !y && sum)
}

/// ADD and ADDC, and with the complement of the source SUB, SUBC and CMP.
#[tactic(auto, unfolding(msp430_chip::specs::Arithmetic::sum))]
pub(crate) fn sum_flags(width: Width, x: u16, y: u16, carry: u16) -> Flags
    ensures { result ≡ results.flags_in (arithmetic.sum width x y carry) }
{
    let total = x as u32 + y as u32 + carry as u32;
    let sum = total % modulus(width);
    let overflow = overflows(
        is_negative(width, x as u32),
        is_negative(width, y as u32),
        is_negative(width, sum),
    );
    flags_of(width, sum, total >= modulus(width), overflow)
}

/// AND, BIT and SXT: C is the opposite of Z.
pub(crate) fn logic_flags(width: Width, value: u16) -> Flags
    ensures { result ≡ results.flags_in (arithmetic.logic width value) }
{
    flags_of(width, value as u32, value != 0, false)
}

/// XOR: V is set where both operands are negative.
pub(crate) fn exclusive_flags(width: Width, x: u16, y: u16) -> Flags
    ensures { result ≡ results.flags_in (arithmetic.exclusive width x y) }
{
    let result = x ^ y;
    let overflow = is_negative(width, x as u32) && is_negative(width, y as u32);
    flags_of(width, result as u32, result != 0, overflow)
}

/// A number moved down by one place, with a bit that comes in at the top.
fn shifted(width: Width, x: u16, bit: u16) -> u32
    ensures { result ≡ numbers.shifted_right (arithmetic.top_place width) x bit }
{
    match width {
        Width::Word => x as u32 / 2 + bit as u32 * 0x8000,
        Width::Byte => x as u32 / 2 + bit as u32 * 0x80,
    }
}

/// RRC, where V is free.
pub(crate) fn rotated_flags(width: Width, x: u16, carry: u16) -> Flags
    ensures { result ≡ results.rotated_flags width x 0 carry }
{
    flags_of(width, shifted(width, x, carry), x % 2 == 1, false)
}

/// The top bit of a number.
fn top_bit(width: Width, x: u16) -> u16
    ensures { result ≡ bit_at x (arithmetic.top_place width) }
{
    match width {
        Width::Word => x / 0x8000 % 2,
        Width::Byte => x / 0x80 % 2,
    }
}

/// RRA, which keeps the top bit.
pub(crate) fn halved_flags(width: Width, x: u16) -> Flags
    ensures { result ≡ results.halved_flags width x 0 0 }
{
    flags_of(
        width,
        shifted(width, x, top_bit(width, x)),
        x % 2 == 1,
        false,
    )
}

/// SXT: bit 7 is copied into bits 8 to 15.
pub(crate) fn sign_extended(x: u16) -> u16
    ensures { result ≡ numbers.sign_extended x }
{
    let low = x % 256;
    if low / 128 == 1 { low + 0xFF00 } else { low }
}
