//! DADD: numbers whose hexadecimal digits are read as decimal ones.

ghost use Rattle.std.specs.Prelude.{◌≡◌, ◌==◌, ◌+◌, ◌*◌, ◌^◌, ◌<◌, ◌≤◌, IfSome, true};
ghost use Rattle.chip_numbers.specs.Numbers as numbers;
ghost use Rattle.msp430_chip.specs.Arithmetic as arithmetic;
ghost use Rattle.choosing.specs.Choosing.{asked};

use crate::results::{Made, made, modulus};
use choosing::Unused;
use msp430_chip::Flags;
use msp430_decode::Width;

fn digits_of(width: Width) -> u32
    ensures { result ≡ arithmetic.digits_of width }
{
    match width {
        Width::Word => 4,
        Width::Byte => 2,
    }
}

/// Whether each of the digits is at most 9.
#[tactic(auto, using(crate::proofs::DecimalLemmas::decimal_none, crate::proofs::DecimalLemmas::decimal_step))]
fn is_decimal(digits: u32, x: u16) -> bool
    ensures { result ≡ numbers.is_decimal digits x }
{
    match digits {
        0 => true,
        digits => x % 16 < 10 && is_decimal(digits - 1, x / 16),
    }
}

/// A digit of a sum, and the carry to the next one.
fn digit_sum(x: u16, y: u16, carry: u16) -> (u16, u16)
    requires x { x < 10 }
    requires y { y < 10 }
    requires carry { carry ≤ 1 }
    ensures sum { result.0 + 10 * result.1 ≡ x + y + carry }
    ensures digit { result.0 < 10 }
    ensures carry { result.1 ≤ 1 }
{
    let sum = x + y + carry;
    if sum > 9 { (sum - 10, 1) } else { (sum, 0) }
}

/// The sum of two decimal numbers of so many digits and a carry, and its carry.
fn added(digits: u32, x: u16, y: u16, carry: u16) -> (u16, u16)
    requires digits { 16 ^ digits ≤ 65536 }
    requires x { numbers.is_decimal digits x ≡ true }
    requires y { numbers.is_decimal digits y ≡ true }
    requires carry { carry ≤ 1 }
    ensures sum { result.0 ≡ numbers.decimal_sum digits x y carry }
    ensures out { (result.1 == 1) ≡ numbers.decimal_carry digits x y carry }
    ensures below { result.0 < 16 ^ digits }
    ensures bit { result.1 ≤ 1 }
{
    match digits {
        0 => (0, carry),
        digits => {
            let (digit, up) = digit_sum(x % 16, y % 16, carry);
            let (rest, out) = added(digits - 1, x / 16, y / 16, up);
            (digit + 16 * rest, out)
        }
    }
}

/// Free flags: C, Z, N and V are the bits of the option, from the lowest up.
fn any_flags(option: u32) -> Flags
    ensures { result ≡ arithmetic.any_flags option }
{
    Flags {
        carry: option % 2 == 1,
        zero: option / 2 % 2 == 1,
        negative: option / 4 % 2 == 1,
        overflow: option / 8 % 2 == 1,
    }
}

/// DADD leaves V free, and all where a digit is above 9.
#[tactic(auto, unfolding(msp430_chip::specs::Arithmetic::decimal))]
pub(crate) fn decimal(
    width: Width,
    x: u16,
    y: u16,
    carry: u16,
    choices: &mut Unused,
) -> Option<Made>
    requires x { x < arithmetic.modulus width }
    requires y { y < arithmetic.modulus width }
    requires carry { carry ≤ 1 }
    ensures exact { asked result choices.new ≡ arithmetic.decimal width x y carry choices.old }
    ensures below { IfSome result (λ made. made.0 < arithmetic.modulus width) }
{
    let digits = digits_of(width);
    if is_decimal(digits, x) && is_decimal(digits, y) {
        let overflow = choices.ask(2)?;
        let (sum, out) = added(digits, x, y, carry);
        return Some(made(width, sum, out == 1, overflow == 1));
    }
    let result = choices.ask(modulus(width))? as u16;
    let option = choices.ask(16)?;
    Some((result, Some(any_flags(option))))
}
