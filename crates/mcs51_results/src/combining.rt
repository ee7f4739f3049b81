//! Numbers that operations make of two numbers and a carry, as sets combine them.

ghost use Rattle.std.specs.Prelude.{◌≡◌, ◌<◌, ◌*◌, nat_le};
ghost use Rattle.value_set.specs.Summing.{count_of, single};
ghost use Rattle.value_bits.specs.declared.tri.Tri.TheVariants.{Either};
ghost use Rattle.value_bits.specs.Sets as sets;
ghost use Rattle.mcs51_state.specs.Known.{any_byte};
ghost use Rattle.mcs51_results.specs.Results as results;
ghost use Rattle.mcs51_results.specs.Rules as rules;

use value_bits::Tri;
use value_set::{Operation, Vs8, set_laws};

/// By which rule an operation makes a number.
#[derive(Clone, Copy)]
pub(crate) enum NumberRule {
    /// ADDC.
    CarrySum,
    /// SUBB.
    CarryDifference,
    /// The low byte that MUL gives.
    ProductLow,
    /// The high byte that MUL gives.
    ProductHigh,
    /// DIV.
    Quotient,
    /// DIV.
    Remainder,
}

impl Operation for NumberRule {
    ghost use Rattle.mcs51_results.specs.Rules.{answer_by, answer_stays};

    ghost modulus = { λ rule. 256 };

    ghost answer = { λ rule. answer_by rule };

    fn apply(&self, x: u16, y: u16, carry: u16) -> u16 {
        answer_by(*self, x, y, carry)
    }

    ghost stays_below = { λ rule. answer_stays rule };
}

fn answer_by(rule: NumberRule, x: u16, y: u16, carry: u16) -> u16
    requires x_below { x < 256 }
    requires y_below { y < 256 }
    requires carry_below { carry < 256 }
    ensures { result ≡ rules.answer_by rule x y carry }
{
    match rule {
        NumberRule::CarrySum => (x + y + carry) % 256,
        NumberRule::CarryDifference => (x + 512 - y - carry) % 256,
        NumberRule::ProductLow => (x as u32 * y as u32 % 256) as u16,
        NumberRule::ProductHigh => (x as u32 * y as u32 / 256) as u16,
        NumberRule::Quotient => if y == 0 { 0 } else { x / y },
        NumberRule::Remainder => if y == 0 { 0 } else { x % y },
    }
}

/// What a bit may be, as a set.
pub(crate) fn chosen(bit: Tri) -> Vs8
    ensures { result ≡ sets.chosen bit }
{
    match bit {
        Tri::Zero => Vs8::one(0),
        Tri::One => Vs8::one(1),
        Tri::Either => zero_or_one(),
    }
}

/// The set of 0 and 1.
fn zero_or_one() -> Vs8
    ensures { result ≡ sets.chosen Either }
{
    set_laws();
    match Vs8::gather(&[0, 1]) {
        Some(set) => set,
        None => unreachable!(),
    }
}

/// Whether sets have at most 256 combinations.
pub(crate) fn is_few(first: &Vs8, second: &Vs8, carry: &Vs8) -> bool
    ensures { result ≡ nat_le (count_of 256 first.now * (count_of 256 second.now * count_of 256 carry.now)) 256 }
{
    first.count() as u64 * (second.count() as u64 * carry.count() as u64) <= 256
}

/// The results of a rule where there are at most 256 combinations, and any number where there are more.
#[tactic(auto, unfolding(value_bits::specs::Sets::combine_or))]
pub(crate) fn combined_or_any(rule: NumberRule, first: &Vs8, second: &Vs8) -> Vs8
    ensures { result ≡ sets.combine_or 256 (rules.answer_by rule) first.now second.now (single 0) any_byte }
{
    let none = Vs8::one(0);
    if is_few(first, second, &none) {
        return Vs8::combine(&rule, first, second, &none);
    }
    Vs8::any()
}

/// The sums with a carry. Above 256 combinations the carry is added to the sums without it.
#[tactic(auto, unfolding(value_bits::specs::Sets::combine_or))]
pub(crate) fn add_carry(first: &Vs8, second: &Vs8, carry: Tri) -> Vs8
    ensures { result ≡ results.add_carry first.now second.now carry }
{
    let carries = chosen(carry);
    if is_few(first, second, &carries) {
        return Vs8::combine(&NumberRule::CarrySum, first, second, &carries);
    }
    first.add(second).add(&carries)
}

/// The differences with a borrow, likewise.
#[tactic(auto, unfolding(value_bits::specs::Sets::combine_or))]
pub(crate) fn sub_carry(first: &Vs8, second: &Vs8, carry: Tri) -> Vs8
    ensures { result ≡ results.sub_carry first.now second.now carry }
{
    let carries = chosen(carry);
    if is_few(first, second, &carries) {
        return Vs8::combine(&NumberRule::CarryDifference, first, second, &carries);
    }
    first.sub(second).sub(&carries)
}
