//! The operations on numbers, as sets combine them.

ghost use Rattle.std.specs.Prelude.{◌≡◌, ◌+◌, ◌*◌, ◌^◌, ◌<◌, ◌≤◌};
ghost use Rattle.chip_numbers.specs.Numbers as numbers;
ghost use Rattle.value_bits.specs.Sets as sets;
ghost use Rattle.value_bits.specs.Lefts as lefts;

use crate::decimal;
use crate::tri::{Logic, Lowest, Top, Tri};
use value_set::Operation;

/// AND, OR or XOR of numbers of a width.
#[derive(Clone, Copy)]
pub struct Bitwise {
    pub width: u32,
    pub logic: Logic,
}

impl Operation for Bitwise {
    ghost use Rattle.value_bits.specs.Bits.{logic_of};
    ghost use Rattle.value_bits.specs.Staying.{logic_stays};

    ghost modulus = { λ operation. 2 ^ operation.width };

    ghost answer = { λ operation x y carry. logic_of operation.logic x y };

    fn apply(&self, x: u16, y: u16, _carry: u16) -> u16 {
        match self.logic {
            Logic::And => x & y,
            Logic::Or => x | y,
            Logic::Xor => x ^ y,
        }
    }

    ghost stays_below = { λ operation. logic_stays operation.width operation.logic };
}

/// A shift to the right by one place. A bit that is unknown is the lowest one of the carry.
#[derive(Clone, Copy)]
pub struct Shift {
    /// The place of the top bit.
    pub place: u32,
    pub top: Top,
}

impl Operation for Shift {
    ghost use Rattle.value_bits.specs.Sets.{shift_answer};
    ghost use Rattle.value_bits.specs.Staying.{shift_stays};

    ghost modulus = { λ operation. 2 ^ (operation.place + 1) };

    ghost answer = { λ operation. shift_answer operation.place operation.top };

    fn apply(&self, x: u16, _y: u16, carry: u16) -> u16 {
        shifted_right(self.place, x, new_top(self.place, self.top, x, carry))
    }

    ghost stays_below = { λ operation. shift_stays operation.place operation.top };
}

/// The bit that a shift puts in.
fn new_top(place: u32, top: Top, x: u16, carry: u16) -> u16
    requires { 2 ^ (place + 1) ≤ 65536 }
    ensures value { result ≡ sets.top_answer place top x carry }
    ensures below { result < 2 }
{
    match top {
        Top::Sign => (x >> place) % 2,
        Top::Low => x % 2,
        Top::Put(_) => carry % 2,
    }
}

fn shifted_right(place: u32, x: u16, bit: u16) -> u16
    requires small { 2 ^ (place + 1) ≤ 65536 }
    requires below { x < 2 ^ (place + 1) }
    requires bit { bit < 2 }
    ensures { result ≡ numbers.shifted_right place x bit }
{
    x / 2 + (bit << place)
}

/// A shift to the left by one place. A bit that is unknown is the lowest one of the carry.
#[derive(Clone, Copy)]
pub struct LeftShift {
    /// The place of the top bit.
    pub place: u32,
    pub lowest: Lowest,
}

impl Operation for LeftShift {
    ghost use Rattle.value_bits.specs.Lefts.{left_answer};
    ghost use Rattle.value_bits.specs.Staying.{left_stays};

    ghost modulus = { λ operation. 2 ^ (operation.place + 1) };

    ghost answer = { λ operation. left_answer operation.place operation.lowest };

    fn apply(&self, x: u16, _y: u16, carry: u16) -> u16 {
        shifted_left(self.place, x, new_lowest(self.place, self.lowest, x, carry))
    }

    ghost stays_below = { λ operation. left_stays operation.place operation.lowest };
}

/// The bit that a shift to the left puts in.
fn new_lowest(place: u32, lowest: Lowest, x: u16, carry: u16) -> u16
    requires { 2 ^ (place + 1) ≤ 65536 }
    ensures value { result ≡ lefts.lowest_answer place lowest x carry }
    ensures below { result < 2 }
{
    match lowest {
        Lowest::High => (x >> place) % 2,
        Lowest::Given(_) => carry % 2,
    }
}

fn shifted_left(place: u32, x: u16, bit: u16) -> u16
    requires small { 2 ^ (place + 1) ≤ 65536 }
    requires bit { bit < 2 }
    ensures { result ≡ numbers.shifted_left place x bit }
{
    x % (1 << place) * 2 + bit
}

/// The exchange of the halves of a number.
#[derive(Clone, Copy)]
pub struct Exchange {
    /// A half is below it, and the number below its square.
    pub n: u16,
}

impl Operation for Exchange {
    ghost use Rattle.chip_numbers.specs.Numbers.{exchanged};
    ghost use Rattle.value_bits.specs.Staying.{exchange_stays};

    ghost modulus = { λ operation. operation.n * operation.n };

    ghost answer = { λ operation x y carry. exchanged operation.n x };

    fn apply(&self, x: u16, _y: u16, _carry: u16) -> u16 {
        exchanged(self.n, x)
    }

    ghost stays_below = { λ operation. exchange_stays operation.n };
}

fn exchanged(n: u16, x: u16) -> u16
    requires small { n * n ≤ 65536 }
    requires below { x < n * n }
    ensures { result ≡ numbers.exchanged n x }
{
    x % n * n + x / n
}

/// The sign extension of a byte in a word.
#[derive(Clone, Copy)]
pub struct SignExtension;

impl Operation for SignExtension {
    ghost use Rattle.chip_numbers.specs.Numbers.{sign_extended};
    ghost use Rattle.value_bits.specs.Staying.{sign_stays};

    ghost modulus = { λ operation. 65536 };

    ghost answer = { λ operation x y carry. sign_extended x };

    fn apply(&self, x: u16, _y: u16, _carry: u16) -> u16 {
        x % 256 + (x >> 7) % 2 * 0xFF00
    }

    ghost stays_below = { λ operation. sign_stays };
}

/// The sum of decimal numbers and a carry.
#[derive(Clone, Copy)]
pub struct DecimalSum {
    pub digits: u32,
}

impl Operation for DecimalSum {
    ghost use Rattle.chip_numbers.specs.Numbers.{decimal_sum};
    ghost use Rattle.value_bits.specs.Staying.{decimal_stays};

    ghost modulus = { λ operation. 16 ^ operation.digits };

    ghost answer = { λ operation. decimal_sum operation.digits };

    fn apply(&self, x: u16, y: u16, carry: u16) -> u16 {
        decimal::sum(self.digits, x, y, carry)
    }

    ghost stays_below = { λ operation. decimal_stays operation.digits };
}

/// The decimal adjustment of a byte, with CY and AC as the second number and the carry.
#[derive(Clone, Copy)]
pub struct DecimalAdjustment;

impl Operation for DecimalAdjustment {
    ghost use Rattle.chip_numbers.specs.Numbers.{decimal_adjusted};
    ghost use Rattle.value_bits.specs.Staying.{adjust_stays};

    ghost modulus = { λ operation. 256 };

    ghost answer = { λ operation. decimal_adjusted };

    fn apply(&self, x: u16, y: u16, carry: u16) -> u16 {
        decimal::adjusted(x, y, carry)
    }

    ghost stays_below = { λ operation. adjust_stays };
}
