//! What is known of the flags that results set.

ghost use Rattle.std.specs.Prelude.{◌≡◌, ◌<◌, true};
ghost use Rattle.value_set.specs.Summing.{single};
ghost use Rattle.value_bits.specs.Bits.{tri_not};
ghost use Rattle.value_bits.specs.Sets.{chosen};
ghost use Rattle.msp430_chip.specs.Arithmetic.{modulus};
ghost use Rattle.msp430_results.specs.declared.flags.FlagRule.TheVariants.{Difference};
ghost use Rattle.msp430_results.specs.FlagSets as flag_sets;
ghost use Rattle.msp430_results.specs.Results as results;
ghost use Rattle.msp430_results.specs.Rules as rules;

use crate::decimal::decimal_sum;
use crate::flag_bits::FlagBits;
use crate::numbers::{
    complement, exclusive_flags, flags_of, halved_flags, logic_flags, rotated_flags, sign_extended,
    sum_flags,
};
use crate::sets::Sets;
use irq_frames::known_laws;
use msp430_chip::Flags;
use msp430_decode::Width;
use value_bits::{AllFlags, FourFlags, Tri};

/// By which rule an operation on two numbers and a carry sets flags.
#[derive(Clone, Copy)]
pub(crate) enum FlagRule {
    Sum,
    SumCarry,
    DifferenceCarry,
    Difference,
    /// The first number is added to itself.
    Twice,
    Decimal,
    And,
    Xor,
    /// RRC of the first number.
    Rotated,
    /// RRA of the first number.
    Halved,
    /// SXT of the first number.
    Extended,
}

/// The flags as an operation sets them: C, Z, N and V.
#[derive(Clone, Copy)]
struct RuleFlags {
    width: Width,
    rule: FlagRule,
}

impl AllFlags for RuleFlags {
    ghost use Rattle.msp430_chip.specs.Arithmetic as chip;
    ghost use Rattle.msp430_results.specs.Rules as rules;

    ghost modulus = { λ flags. chip.modulus flags.width };

    ghost value = { λ flags place x y carry. rules.flag_of place (rules.flags_by flags.rule flags.width x y carry) };

    fn are_set(&self, x: u16, y: u16, carry: u16) -> FourFlags {
        let flags = flags_by(self.rule, self.width, x, y, carry);
        FourFlags {
            first: flags.carry,
            second: flags.zero,
            third: flags.negative,
            fourth: flags.overflow,
        }
    }
}

fn flags_by(rule: FlagRule, width: Width, x: u16, y: u16, carry: u16) -> Flags
    requires { y < modulus width }
    ensures { result ≡ rules.flags_by rule width x y carry }
{
    match rule {
        FlagRule::Sum => sum_flags(width, x, y, 0),
        FlagRule::SumCarry => sum_flags(width, x, y, carry),
        FlagRule::DifferenceCarry => sum_flags(width, x, complement(width, y), carry),
        FlagRule::Difference => sum_flags(width, x, complement(width, y), 1),
        FlagRule::Twice => sum_flags(width, x, x, 0),
        FlagRule::Decimal => decimal_flags(width, x, y, carry),
        FlagRule::And => logic_flags(width, x & y),
        FlagRule::Xor => exclusive_flags(width, x, y),
        FlagRule::Rotated => rotated_flags(width, x, carry),
        FlagRule::Halved => halved_flags(width, x),
        FlagRule::Extended => logic_flags(width, sign_extended(x)),
    }
}

/// DADD, where V is free.
fn decimal_flags(width: Width, x: u16, y: u16, carry: u16) -> Flags
    ensures { result ≡ results.decimal_flags width x y carry }
{
    let (sum, out) = decimal_sum(width, x, y, carry);
    flags_of(width, sum, out, false)
}

/// Each flag is known where all of at most 256 combinations agree.
pub(crate) fn all_agree<S: Sets>(rule: FlagRule, first: &S, second: &S, carry: Tri) -> FlagBits
    ensures { result ≡ flag_sets.all_agree (modulus S.width) (rules.flags_by rule S.width) (S.form first.now) (S.form second.now) (chosen carry) }
{
    let width = S::own_width();
    let known = S::all_agreed(&RuleFlags { width, rule }, first, second, carry);
    FlagBits {
        carry: known.first,
        zero: known.second,
        negative: known.third,
        overflow: known.fourth,
    }
}

/// The flags of differences over at most 256 combinations. Where no number is negative, or each is, V is clear and N is the
/// opposite of C: then the ends of the sets tell C, and a walk of both tells Z.
pub(crate) fn differences_agree<S: Sets>(first: &S, second: &S) -> FlagBits
    requires { flag_sets.is_few (modulus S.width) (S.form first.now) (S.form second.now) (single 0) ≡ true }
    ensures { result ≡ flag_sets.all_agree (modulus S.width) (rules.flags_by Difference S.width) (S.form first.now) (S.form second.now) (single 0) }
{
    known_laws();
    first.is_normal();
    second.is_normal();
    if is_one_sign(first.sign(), second.sign()) {
        return ends_tell(first, second);
    }
    all_agree(FlagRule::Difference, first, second, Tri::Zero)
}

fn is_one_sign(first: Tri, second: Tri) -> bool
    ensures { result ≡ flag_sets.is_one_sign first second }
{
    matches!(
        (first, second),
        (Tri::Zero, Tri::Zero) | (Tri::One, Tri::One)
    )
}

/// Those of differences of numbers with one sign.
fn ends_tell<S: Sets>(first: &S, second: &S) -> FlagBits
    ensures { result ≡ flag_sets.compared (modulus S.width) (S.form first.now) (S.form second.now) }
{
    let carry = first.at_least(second);
    FlagBits {
        carry,
        zero: first.equal(second),
        negative: opposite(carry),
        overflow: Tri::Zero,
    }
}

/// The flags over at most 256 combinations, and others over more.
pub(crate) fn flags_or<S: Sets>(
    rule: FlagRule,
    first: &S,
    second: &S,
    carry: Tri,
    shown: FlagBits,
) -> FlagBits
    ensures { result ≡ flag_sets.flags_or (modulus S.width) (rules.flags_by rule S.width) (S.form first.now) (S.form second.now) (chosen carry) shown }
{
    if S::is_few(first, second, &S::chosen(carry)) {
        return all_agree(rule, first, second, carry);
    }
    shown
}

/// Z and N are those that the set shows.
pub(crate) fn shown_flags<S: Sets>(set: &S, carry: Tri, overflow: Tri) -> FlagBits
    ensures { result ≡ flag_sets.shown_flags S.width (S.form set.now) carry overflow }
{
    FlagBits {
        carry,
        zero: set.zero(),
        negative: set.negative(),
        overflow,
    }
}

fn opposite(bit: Tri) -> Tri
    ensures { result ≡ tri_not bit }
{
    match bit {
        Tri::Zero => Tri::One,
        Tri::One => Tri::Zero,
        Tri::Either => Tri::Either,
    }
}

/// C is the opposite of Z.
pub(crate) fn shown_logic<S: Sets>(set: &S, overflow: Tri) -> FlagBits
    ensures { result ≡ flag_sets.shown_logic S.width (S.form set.now) overflow }
{
    shown_flags(set, opposite(set.zero()), overflow)
}

/// V is free.
pub(crate) fn free_overflow(bits: FlagBits) -> FlagBits
    ensures { result ≡ flag_sets.free_overflow bits }
{
    FlagBits {
        overflow: Tri::Either,
        ..bits
    }
}

/// Nothing is known of the flags.
pub(crate) fn no_flags() -> FlagBits
    ensures { result ≡ flag_sets.no_flags }
{
    FlagBits {
        carry: Tri::Either,
        zero: Tri::Either,
        negative: Tri::Either,
        overflow: Tri::Either,
    }
}
