//! Sets of numbers of any width, made of bits and of lists.

ghost use Rattle.std.specs.Prelude.{◌≡◌, ℕ, ◌*◌, ◌^◌, ◌<◌, ◌≤◌, ◌↔◌, IsTrue, IsNone, IfSome, All, length};
ghost use Rattle.value_set.specs.declared.form.Form.{Form as AForm};
ghost use Rattle.value_set.specs.Form as forms;
ghost use Rattle.value_set.specs.Form.{IsNormal, members};
ghost use Rattle.value_set.specs.Summing.{single};
ghost use Rattle.value_bits.specs.Bits as known;
ghost use Rattle.value_bits.specs.Sets as sets;
ghost use Rattle.value_bits.specs.Lefts as lefts;

use crate::making::{FEW_UNKNOWN, filled, lowest_unknown, numbers, unknown_count};
use crate::tri::{Lowest, Top, Tri};
use value_set::sets::{combine, count, gather, make};
use value_set::{Few, Form, Operation, set_laws};

/// 2 to the power of a number of bits: how many numbers of that width there are.
#[tactic(auto, using(std::proofs::lemmas::Nat::one_shl))]
pub fn power_of_two(bits: u32) -> u32
    requires { bits ≤ 16 }
    ensures value { result ≡ 2 ^ bits }
    ensures small { result ≤ 65536 }
{
    1 << bits
}

/// The set of the numbers with some bits.
pub fn with_bits(width: u32, all: &[Tri]) -> Form
    requires narrow { width ≤ 16 }
    requires wide { length all.now ≡ width }
    ensures { result ≡ known.from_bits width all.now }
{
    let modulus = power_of_two(width);
    if unknown_count(all) <= FEW_UNKNOWN {
        return gathered(modulus, numbers(all).as_slice());
    }
    set_laws();
    let stride = power_of_two(lowest_unknown(all) as u32);
    let least = filled(0, all);
    make(
        modulus,
        least,
        stride,
        (filled(1, all) - least) / stride + 1,
    )
}

/// The set of some numbers.
fn gathered(modulus: u32, numbers: &[u16]) -> Form
    requires small { modulus ≤ 65536 }
    requires below { All (λ n. n < modulus) numbers.now }
    requires some { 1 ≤ length numbers.now }
    ensures { result ≡ forms.gather modulus numbers.now }
{
    match gather(modulus, numbers) {
        Some(set) => set,
        None => unreachable!(),
    }
}

/// The set of 0, as the carry of an operation that has none.
pub fn no_carry() -> Form
    ensures { result ≡ single 0 }
{
    chosen(Tri::Zero)
}

/// What a bit may be, as a set.
#[tactic(auto, using(crate::proofs::Singly::chosen_normal))]
pub fn chosen(bit: Tri) -> Form
    ensures value { result ≡ sets.chosen bit }
    ensures normal { (m : ℕ) → 2 ≤ m → IsNormal m result }
{
    match bit {
        Tri::Zero => Form::Values(Few::from_slice([0].as_slice())),
        Tri::One => Form::Values(Few::from_slice([1].as_slice())),
        Tri::Either => Form::Values(Few::from_slice([0, 1].as_slice())),
    }
}

/// What the carry of a shift may be.
pub fn top_carry(top: Top) -> Form
    ensures value { result ≡ sets.top_carry top }
    ensures normal { (m : ℕ) → 2 ≤ m → IsNormal m result }
{
    match top {
        Top::Sign | Top::Low => chosen(Tri::Zero),
        Top::Put(bit) => chosen(bit),
    }
}

/// What the carry of a shift to the left may be.
pub fn lowest_carry(lowest: Lowest) -> Form
    ensures value { result ≡ lefts.lowest_carry lowest }
    ensures normal { (m : ℕ) → 2 ≤ m → IsNormal m result }
{
    match lowest {
        Lowest::High => chosen(Tri::Zero),
        Lowest::Given(bit) => chosen(bit),
    }
}

/// All results of an operation, where there are at most 256 combinations.
pub fn combined<O: Operation>(
    modulus: u32,
    operation: &O,
    first: &Form,
    second: &Form,
    carry: &Form,
) -> Option<Form>
    requires small { modulus ≤ 65536 }
    requires first_normal { IsNormal modulus first.now }
    requires second_normal { IsNormal modulus second.now }
    requires carry_normal { IsNormal modulus carry.now }
    requires width { O.modulus operation.now ≡ modulus }
    ensures few { IfSome result (λ set. (otherwise : AForm) → set ≡ sets.combine_or modulus (O.answer operation.now) first.now second.now carry.now otherwise) }
    ensures many { IsNone result → (otherwise : AForm)
        → otherwise ≡ sets.combine_or modulus (O.answer operation.now) first.now second.now carry.now otherwise }
{
    if !is_few(modulus, first, second, carry) {
        return None;
    }
    Some(combine(modulus, operation, first, second, carry))
}

/// Whether sets have at most 256 combinations.
pub fn is_few(modulus: u32, first: &Form, second: &Form, carry: &Form) -> bool
    requires small { modulus ≤ 65536 }
    requires first_normal { IsNormal modulus first.now }
    requires second_normal { IsNormal modulus second.now }
    requires carry_normal { IsNormal modulus carry.now }
    ensures { IsTrue result ↔ (length (members modulus first.now) * (length (members modulus second.now) * length (members modulus carry.now)) ≤ 256) }
{
    let seconds = count(modulus, second) as u64 * count(modulus, carry) as u64;
    count(modulus, first) as u64 * seconds <= 256
}
