//! Decimal sums of a width.

ghost use Rattle.std.specs.Prelude.{◌≡◌};
ghost use Rattle.chip_numbers.specs.Numbers as numbers;
ghost use Rattle.msp430_chip.specs.Arithmetic as arithmetic;

use msp430_decode::Width;
use value_bits::decimal as number;

/// How many digits a number has.
pub(crate) fn digits_of(width: Width) -> u32
    ensures { result ≡ arithmetic.digits_of width }
{
    match width {
        Width::Word => 4,
        Width::Byte => 2,
    }
}

/// The sum of two decimal numbers and a carry, and whether it carries.
pub(crate) fn decimal_sum(width: Width, x: u16, y: u16, carry: u16) -> (u32, bool)
    ensures sum { result.0 ≡ numbers.decimal_sum (arithmetic.digits_of width) x y carry }
    ensures out { result.1 ≡ numbers.decimal_carry (arithmetic.digits_of width) x y carry }
{
    let digits = digits_of(width);
    let total = number::value(digits, x) + number::value(digits, y) + carry as u32;
    let most = match width {
        Width::Word => 10_000,
        Width::Byte => 100,
    };
    (number::digits_of(digits, total), total >= most)
}
