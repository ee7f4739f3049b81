//! Decimal numbers: each hexadecimal digit is read as a decimal one.

ghost use Rattle.std.specs.Prelude.{◌≡◌, ◌^◌, ◌<◌, ◌≤◌};
ghost use Rattle.std.specs.List.{list_all};
ghost use Rattle.value_set.specs.Form.{IsNormal, members};
ghost use Rattle.chip_numbers.specs.Numbers as numbers;

use value_set::Form;
use value_set::sets::{count, nth};

/// Whether each of the digits is at most 9.
pub fn is_decimal(digits: u32, x: u16) -> bool
    ensures { result ≡ numbers.is_decimal digits x }
{
    match digits {
        0 => true,
        digits => x % 16 < 10 && is_decimal(digits - 1, x / 16),
    }
}

/// Whether each digit of each member of a set is at most 9.
pub fn are_decimal(modulus: u32, digits: u32, set: &Form) -> bool
    requires small { modulus ≤ 65536 }
    requires normal { IsNormal modulus set.now }
    ensures { result ≡ list_all (numbers.is_decimal digits) (members modulus set.now) }
{
    for place in 0..count(modulus, set) {
        if !is_decimal(digits, nth(modulus, set, place)) {
            return false;
        }
    }
    true
}

/// The number that the digits write.
pub fn value(digits: u32, x: u16) -> u32
    ensures value { result ≡ numbers.decimal_value digits x }
    ensures most { result ≤ x }
{
    match digits {
        0 => 0,
        digits => (x % 16) as u32 + 10 * value(digits - 1, x / 16),
    }
}

/// The last digits of a number.
pub fn digits_of(digits: u32, number: u32) -> u32
    requires { 16 ^ digits ≤ 65536 }
    ensures value { result ≡ numbers.decimal_digits digits number }
    ensures below { result < 16 ^ digits }
{
    match digits {
        0 => 0,
        digits => number % 10 + 16 * digits_of(digits - 1, number / 10),
    }
}

/// The sum of two decimal numbers and a carry.
pub fn sum(digits: u32, x: u16, y: u16, carry: u16) -> u16
    requires { 16 ^ digits ≤ 65536 }
    ensures { result ≡ numbers.decimal_sum digits x y carry }
{
    let total = value(digits, x) + value(digits, y) + carry as u32;
    digits_of(digits, total) as u16
}

/// The decimal adjustment of the sum of two decimal bytes, with CY and AC.
pub fn adjusted(a: u16, carry: u16, half: u16) -> u16
    requires { a < 256 }
    ensures { result ≡ numbers.decimal_adjusted a carry half }
{
    high_adjusted(low_adjusted(a, half), carry) % 256
}

/// The first step of the adjustment, by AC.
pub fn low_adjusted(a: u16, half: u16) -> u16
    requires { a < 256 }
    ensures value { result ≡ numbers.low_adjusted a half }
    ensures below { result < 262 }
{
    if a % 16 > 9 || half == 1 { a + 6 } else { a }
}

/// The second step of the adjustment, by CY.
pub fn high_adjusted(low: u16, carry: u16) -> u16
    requires { low < 262 }
    ensures { result ≡ numbers.high_adjusted low carry }
{
    if low % 256 / 16 > 9 || carry == 1 || low >= 256 {
        low + 0x60
    } else {
        low
    }
}
