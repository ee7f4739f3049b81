//! Operations on numbers of a width, as sets combine them, and the sets of their results.

ghost use Rattle.std.specs.Prelude.{◌≡◌};
ghost use Rattle.msp430_chip.specs.Arithmetic.{modulus as modulus_of};
ghost use Rattle.msp430_results.specs.Results as results;

use crate::numbers::{complement, modulus};
use crate::sets::Sets;
use msp430_decode::Width;
use value_bits::Tri;
use value_set::Operation;

/// A sum with a carry.
#[derive(Clone, Copy)]
struct CarrySum {
    width: Width,
}

impl Operation for CarrySum {
    ghost use Rattle.std.specs.Prelude.{◌+◌};
    ghost use Rattle.value_set.specs.Operations.{remainder_stays};
    ghost use Rattle.msp430_chip.specs.Arithmetic as chip;
    ghost use Rattle.msp430_results.specs.Results.{carry_answer};

    ghost modulus = { λ sum. chip.modulus sum.width };

    ghost answer = { λ sum. carry_answer (chip.modulus sum.width) };

    fn apply(&self, x: u16, y: u16, carry: u16) -> u16 {
        ((x as u32 + y as u32 + carry as u32) % modulus(self.width)) as u16
    }

    ghost stays_below = { λ sum. remainder_stays (chip.modulus sum.width) (λ x y z. x + y + z) };
}

/// A difference with a carry: the complement is added.
#[derive(Clone, Copy)]
struct CarryDifference {
    width: Width,
}

impl Operation for CarryDifference {
    ghost use Rattle.std.specs.Prelude.{◌+◌, ◌-◌};
    ghost use Rattle.value_set.specs.Operations.{remainder_stays};
    ghost use Rattle.msp430_chip.specs.Arithmetic as chip;
    ghost use Rattle.msp430_results.specs.Results.{borrow_answer};

    ghost modulus = { λ difference. chip.modulus difference.width };

    ghost answer = { λ difference. borrow_answer (chip.modulus difference.width) };

    fn apply(&self, x: u16, y: u16, carry: u16) -> u16 {
        let total = x as u32 + complement(self.width, y) as u32 + carry as u32;
        (total % modulus(self.width)) as u16
    }

    ghost stays_below = { λ difference. remainder_stays (chip.modulus difference.width) (λ x y z. x + (chip.modulus difference.width - 1 - y) + z) };
}

/// BIC: the bits of the first number that the second one lacks.
#[derive(Clone, Copy)]
struct Clearing {
    width: Width,
}

impl Operation for Clearing {
    ghost use Rattle.msp430_chip.specs.Arithmetic as chip;
    ghost use Rattle.msp430_results.specs.Results.{clear_answer};
    ghost use Rattle.msp430_results.specs.Rules.{clear_stays};

    ghost modulus = { λ clearing. chip.modulus clearing.width };

    ghost answer = { λ clearing. clear_answer clearing.width };

    fn apply(&self, x: u16, y: u16, _carry: u16) -> u16 {
        x & complement(self.width, y)
    }

    ghost stays_below = { λ clearing. clear_stays clearing.width };
}

/// The sums with a carry.
#[tactic(auto, unfolding(value_bits::specs::Sets::combine_or))]
pub(crate) fn add_carry<S: Sets>(first: &S, second: &S, carry: Tri) -> S
    ensures { S.form result ≡ results.add_carry (modulus_of S.width) (S.form first.now) (S.form second.now) carry }
{
    let width = S::own_width();
    let carries = S::chosen(carry);
    if S::is_few(first, second, &carries) {
        return S::combined(&CarrySum { width }, first, second, &carries);
    }
    first.plus(second).plus(&carries)
}

/// The differences with a carry.
#[tactic(auto, unfolding(value_bits::specs::Sets::combine_or))]
pub(crate) fn sub_carry<S: Sets>(first: &S, second: &S, carry: Tri) -> S
    ensures { S.form result ≡ results.sub_carry (modulus_of S.width) (S.form first.now) (S.form second.now) carry }
{
    let width = S::own_width();
    let carries = S::chosen(carry);
    if S::is_few(first, second, &carries) {
        return S::combined(&CarryDifference { width }, first, second, &carries);
    }
    first.minus(second).plus(&S::borrowed(carry))
}

/// The numbers of the first set without the bits of those of the second.
#[tactic(auto, unfolding(value_bits::specs::Sets::combine_or))]
pub(crate) fn cleared<S: Sets>(first: &S, second: &S) -> S
    ensures { S.form result ≡ results.clear_set S.width (S.form first.now) (S.form second.now) }
{
    let width = S::own_width();
    let none = S::chosen(Tri::Zero);
    if S::is_few(first, second, &none) {
        return S::combined(&Clearing { width }, first, second, &none);
    }
    first.without_bits(second)
}
