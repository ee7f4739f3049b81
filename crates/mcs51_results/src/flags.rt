//! What is known of the flags that operations set.

ghost use Rattle.std.specs.Prelude.{◌≡◌, ◌<◌};
ghost use Rattle.chip_numbers.specs.Numbers as numbers;
ghost use Rattle.value_bits.specs.Sets.{chosen};
ghost use Rattle.mcs51_chip.specs.Arithmetic as arithmetic;
ghost use Rattle.mcs51_results.specs.Results as results;
ghost use Rattle.mcs51_results.specs.Rules as rules;

use value_bits::{AllFlags, Flag, FourFlags, Tri, w8};
use value_set::Vs8;

/// By which rule an operation on two numbers and a carry sets a flag.
#[derive(Clone, Copy)]
pub(crate) enum FlagRule {
    /// CY of a sum.
    Carry,
    /// AC of a sum.
    HalfCarry,
    /// OV of a sum.
    SumOverflow,
    /// CY of a difference.
    Borrow,
    /// AC of a difference.
    HalfBorrow,
    /// OV of a difference.
    DifferenceOverflow,
    /// CY of the first number added to itself.
    TwiceCarry,
    TwiceHalfCarry,
    TwiceOverflow,
    /// CY behind RRC of the first number.
    LowestBit,
    /// CY behind RLC of the first number.
    HighestBit,
    /// CY behind DA of the first number, with CY and AC.
    Adjusted,
    /// OV behind MUL.
    Exceeding,
    /// OV behind DIV.
    ByZero,
}

impl Flag for FlagRule {
    ghost use Rattle.mcs51_results.specs.Rules.{flag_by};

    ghost modulus = { λ rule. 256 };

    ghost value = { λ rule. flag_by rule };

    fn is_set(&self, x: u16, y: u16, carry: u16) -> bool {
        flag_by(*self, x, y, carry)
    }
}

/// CY, AC and OV, which one operation sets, each by its rule.
#[derive(Clone, Copy)]
pub(crate) struct ThreeFlags {
    pub carry: FlagRule,
    pub half: FlagRule,
    pub overflow: FlagRule,
}

impl AllFlags for ThreeFlags {
    ghost use Rattle.mcs51_results.specs.Rules.{flag_by, rule_at};

    ghost modulus = { λ flags. 256 };

    ghost value = { λ flags place. flag_by (rule_at place flags) };

    /// OV has the fourth place too, so that a walk ends where none of the three is known.
    fn are_set(&self, x: u16, y: u16, carry: u16) -> FourFlags {
        let overflow = flag_by(self.overflow, x, y, carry);
        FourFlags {
            first: flag_by(self.carry, x, y, carry),
            second: flag_by(self.half, x, y, carry),
            third: overflow,
            fourth: overflow,
        }
    }
}

fn carries(power: u16, x: u16, y: u16, carry: u16) -> bool
    requires some { 0 < power }
    requires carry_below { carry < 256 }
    ensures { result ≡ arithmetic.carries power x y carry }
{
    (x % power) as u32 + (y % power) as u32 + carry as u32 >= power as u32
}

fn borrows(power: u16, x: u16, y: u16, carry: u16) -> bool
    requires some { 0 < power }
    requires carry_below { carry < 256 }
    ensures { result ≡ arithmetic.borrows power x y carry }
{
    ((x % power) as u32) < (y % power) as u32 + carry as u32
}

fn differ(one: bool, other: bool) -> bool
    ensures { result ≡ arithmetic.differ one other }
{
    if one { !other } else { other }
}

/// DA's first step.
fn low_adjusted(a: u16, half: u16) -> u16
    requires { a < 256 }
    ensures value { result ≡ numbers.low_adjusted a half }
    ensures most { result < 262 }
{
    if a % 16 > 9 || half == 1 { a + 6 } else { a }
}

/// Whether DA's second step is made.
fn is_high_adjusted(low: u16, carry: u16) -> bool
    ensures { result ≡ rules.is_high_adjusted low carry }
{
    low % 256 / 16 > 9 || carry == 1 || low >= 256
}

/// DA's second step.
fn high_adjusted(low: u16, carry: u16) -> u16
    requires { low < 262 }
    ensures { result ≡ numbers.high_adjusted low carry }
{
    if is_high_adjusted(low, carry) {
        low + 96
    } else {
        low
    }
}

/// CY behind DA.
fn adjusted_carry(a: u16, carry: u16, half: u16) -> bool
    requires { a < 256 }
    ensures { result ≡ numbers.adjusted_carry a carry half }
{
    carry == 1 || high_adjusted(low_adjusted(a, half), carry) >= 256
}

fn flag_by(rule: FlagRule, x: u16, y: u16, carry: u16) -> bool
    requires x_below { x < 256 }
    requires y_below { y < 256 }
    requires carry_below { carry < 256 }
    ensures { result ≡ rules.flag_by rule x y carry }
{
    match rule {
        FlagRule::Carry => carries(256, x, y, carry),
        FlagRule::HalfCarry => carries(16, x, y, carry),
        FlagRule::SumOverflow => differ(carries(256, x, y, carry), carries(128, x, y, carry)),
        FlagRule::Borrow => borrows(256, x, y, carry),
        FlagRule::HalfBorrow => borrows(16, x, y, carry),
        FlagRule::DifferenceOverflow => {
            differ(borrows(256, x, y, carry), borrows(128, x, y, carry))
        }
        FlagRule::TwiceCarry => carries(256, x, x, 0),
        FlagRule::TwiceHalfCarry => carries(16, x, x, 0),
        FlagRule::TwiceOverflow => differ(carries(256, x, x, 0), carries(128, x, x, 0)),
        FlagRule::LowestBit => x % 2 == 1,
        FlagRule::HighestBit => x / 128 == 1,
        FlagRule::Adjusted => adjusted_carry(x, y, carry),
        FlagRule::Exceeding => x as u32 * y as u32 > 255,
        FlagRule::ByZero => y == 0,
    }
}

/// What is known of a flag: it is known where at most 256 combinations agree.
pub(crate) fn known_flag(rule: FlagRule, first: &Vs8, second: &Vs8, carry: Tri) -> Tri
    ensures { result ≡ results.known_flag rule first.now second.now (chosen carry) }
{
    w8::agreed(&rule, first, second, carry)
}
