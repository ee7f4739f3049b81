//! Results of the families of instructions, with their flags.

ghost use Rattle.std.specs.Prelude.{◌≡◌, ◌<◌, ◌≤◌, ◌%◌, ◌==◌, IfSome, false};
ghost use Rattle.std.specs.Int.{bit_at};
ghost use Rattle.chip_numbers.specs.Numbers as numbers;
ghost use Rattle.msp430_chip.specs.Arithmetic as arithmetic;
ghost use Rattle.choosing.specs.Choosing.{asked};

use choosing::Unused;
use msp430_chip::Flags;
use msp430_decode::Width;

/// A result, and the flags that it sets, if it sets any.
pub(crate) type Made = (u16, Option<Flags>);

/// How many numbers a width has.
pub(crate) fn modulus(width: Width) -> u32
    ensures value { result ≡ arithmetic.modulus width }
    ensures most { result ≤ 65536 }
{
    match width {
        Width::Word => 65536,
        Width::Byte => 256,
    }
}

/// Each bit of a number is the other one.
pub(crate) fn complement(width: Width, x: u16) -> u16
    requires { x < arithmetic.modulus width }
    ensures value { result ≡ arithmetic.complement width x }
    ensures below { result < arithmetic.modulus width }
{
    (modulus(width) - 1 - x as u32) as u16
}

/// Whether the top bit is set.
fn is_negative(width: Width, x: u16) -> bool
    ensures { result ≡ arithmetic.is_negative width x }
{
    match width {
        Width::Word => x >= 0x8000,
        Width::Byte => x >= 0x80,
    }
}

fn overflows(x: bool, y: bool, sum: bool) -> bool
    ensures { result ≡ arithmetic.overflows x y sum }
{
    (x && y && !sum) || (!x && !y && sum)
}

/// A result with its flags: Z and N are those of the result.
pub(crate) fn made(width: Width, value: u16, carry: bool, overflow: bool) -> Made
    ensures { result ≡ arithmetic.made width value carry overflow }
{
    let flags = Flags {
        carry,
        zero: value == 0,
        negative: is_negative(width, value),
        overflow,
    };
    (value, Some(flags))
}

/// ADD and ADDC, and with the complement of the source SUB, SUBC and CMP.
#[tactic(auto, unfolding(msp430_chip::specs::Arithmetic::sum))]
pub(crate) fn sum(width: Width, x: u16, y: u16, carry: u16) -> Made
    requires x { x < arithmetic.modulus width }
    requires y { y < arithmetic.modulus width }
    requires carry { carry ≤ 1 }
    ensures value { result ≡ arithmetic.sum width x y carry }
    ensures below { result.0 < arithmetic.modulus width }
{
    let total = x as u32 + y as u32 + carry as u32;
    let result = (total % modulus(width)) as u16;
    let overflow = overflows(
        is_negative(width, x),
        is_negative(width, y),
        is_negative(width, result),
    );
    made(width, result, total >= modulus(width), overflow)
}

/// AND, BIT and SXT: C is the opposite of Z.
pub(crate) fn logic(width: Width, value: u16) -> Made
    ensures { result ≡ arithmetic.logic width value }
{
    made(width, value, value != 0, false)
}

/// XOR: V is set where both operands are negative.
pub(crate) fn exclusive(width: Width, x: u16, y: u16) -> Made
    requires x { x < arithmetic.modulus width }
    requires y { y < arithmetic.modulus width }
    ensures value { result ≡ arithmetic.exclusive width x y }
    ensures below { result.0 < arithmetic.modulus width }
{
    let result = x ^ y;
    made(
        width,
        result,
        result != 0,
        is_negative(width, x) && is_negative(width, y),
    )
}

/// A number moved down by one place, with a bit that comes in at the top.
fn shifted(width: Width, x: u16, bit: u16) -> u16
    requires x { x < arithmetic.modulus width }
    requires bit { bit ≤ 1 }
    ensures value { result ≡ numbers.shifted_right (arithmetic.top_place width) x bit }
    ensures below { result < arithmetic.modulus width }
{
    match width {
        Width::Word => x / 2 + bit * 0x8000,
        Width::Byte => x / 2 + bit * 0x80,
    }
}

/// RRC, which leaves V free.
#[tactic(auto, unfolding(msp430_chip::specs::Arithmetic::rotated))]
pub(crate) fn rotated(width: Width, x: u16, carry: u16, choices: &mut Unused) -> Option<Made>
    requires x { x < arithmetic.modulus width }
    requires carry { carry ≤ 1 }
    ensures exact { asked result choices.new ≡ arithmetic.rotated width x carry choices.old }
    ensures below { IfSome result (λ made. made.0 < arithmetic.modulus width) }
{
    let overflow = choices.ask(2)?;
    Some(made(width, shifted(width, x, carry), x % 2 == 1, overflow == 1))
}

/// RRA, which keeps the top bit.
pub(crate) fn halved(width: Width, x: u16) -> Made
    requires { x < arithmetic.modulus width }
    ensures value { result ≡ arithmetic.made width (numbers.shifted_right (arithmetic.top_place width) x (bit_at x (arithmetic.top_place width))) (x % 2 == 1) false }
    ensures below { result.0 < arithmetic.modulus width }
{
    let top = if is_negative(width, x) { 1 } else { 0 };
    made(width, shifted(width, x, top), x % 2 == 1, false)
}

/// SXT: bit 7 is copied into bits 8 to 15.
pub(crate) fn sign_extended(x: u16) -> u16
    ensures { result ≡ numbers.sign_extended x }
{
    let low = x % 256;
    if low / 128 == 1 { low + 0xFF00 } else { low }
}

/// SWPB: the bytes change places.
pub(crate) fn exchanged(x: u16) -> u16
    ensures { result ≡ numbers.exchanged 256 x }
{
    x % 256 * 256 + x / 256
}
