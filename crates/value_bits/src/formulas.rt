//! The sets that `specs/Sets.antt` and `specs/Lefts.antt` define, at any width.

ghost use Rattle.std.specs.Prelude.{◌≡◌, ℕ, ◌+◌, ◌^◌, ◌<◌, ◌≤◌, ◌&&◌};
ghost use Rattle.std.specs.List.{list_all};
ghost use Rattle.value_set.specs.Form.{IsNormal, members};
ghost use Rattle.chip_numbers.specs.Numbers as numbers;
ghost use Rattle.value_bits.specs.Sets as sets;
ghost use Rattle.value_bits.specs.Lefts as lefts;

use crate::decimal::are_decimal;
use crate::forming::{
    chosen, combined, lowest_carry, no_carry, power_of_two, top_carry, with_bits,
};
use crate::knowing::{
    exchanged_bits, extended_bits, known_bits, left_bits, logic_bits, shift_bits,
};
use crate::operations::{
    Bitwise, DecimalAdjustment, DecimalSum, Exchange, LeftShift, Shift, SignExtension,
};
use crate::tri::{Logic, Lowest, Top, Tri};
use value_set::Form;
use value_set::sets::any;

/// The results of AND, OR or XOR.
#[tactic(auto, unfolding(crate::specs::Sets::logic_set))]
pub fn logic_set(width: u32, logic: Logic, a: &Form, b: &Form) -> Form
    requires narrow { width ≤ 16 }
    requires first_normal { IsNormal (2 ^ width) a.now }
    requires second_normal { IsNormal (2 ^ width) b.now }
    ensures { result ≡ sets.logic_set width logic a.now b.now }
{
    let modulus = power_of_two(width);
    match combined(modulus, &Bitwise { width, logic }, a, b, &no_carry()) {
        Some(set) => set,
        None => with_bits(width, logic_bits(width, logic, a, b).as_slice()),
    }
}

/// The numbers shifted to the right by one place.
#[tactic(auto, unfolding(crate::specs::Sets::shift_set))]
pub fn shift_set(place: u32, a: &Form, top: Top) -> Form
    requires narrow { place < 16 }
    requires normal { IsNormal (2 ^ (place + 1)) a.now }
    ensures { result ≡ sets.shift_set place a.now top }
{
    let width = place + 1;
    match combined(
        power_of_two(width),
        &Shift { place, top },
        a,
        &no_carry(),
        &top_carry(top),
    ) {
        Some(set) => set,
        None => with_bits(
            width,
            shift_bits(place, top, known_bits(width, a).as_slice()).as_slice(),
        ),
    }
}

/// The numbers shifted to the left by one place.
#[tactic(auto, unfolding(crate::specs::Lefts::left_set))]
pub fn left_set(place: u32, a: &Form, lowest: Lowest) -> Form
    requires narrow { place < 16 }
    requires normal { IsNormal (2 ^ (place + 1)) a.now }
    ensures { result ≡ lefts.left_set place a.now lowest }
{
    let width = place + 1;
    match combined(
        power_of_two(width),
        &LeftShift { place, lowest },
        a,
        &no_carry(),
        &lowest_carry(lowest),
    ) {
        Some(set) => set,
        None => with_bits(
            width,
            left_bits(place, lowest, known_bits(width, a).as_slice()).as_slice(),
        ),
    }
}

/// The numbers whose halves change places.
#[tactic(auto, unfolding(crate::specs::Sets::exchange_set))]
pub fn exchange_set(half: u32, a: &Form) -> Form
    requires narrow { half ≤ 8 }
    requires normal { IsNormal (2 ^ (half + half)) a.now }
    ensures { result ≡ sets.exchange_set half a.now }
{
    let width = half + half;
    let n = power_of_two(half) as u16;
    let none = no_carry();
    match combined(power_of_two(width), &Exchange { n }, a, &none, &none) {
        Some(set) => set,
        None => with_bits(
            width,
            exchanged_bits(half as usize, known_bits(width, a).as_slice()).as_slice(),
        ),
    }
}

/// The words with bit 7 copied into bits 8 to 15.
#[tactic(auto, unfolding(crate::specs::Sets::sign_extend_set))]
pub fn sign_extend_set(a: &Form) -> Form
    requires { IsNormal 65536 a.now }
    ensures { result ≡ sets.sign_extend_set a.now }
{
    let none = no_carry();
    match combined(65536, &SignExtension, a, &none, &none) {
        Some(set) => set,
        None => with_bits(16, extended_bits(known_bits(16, a).as_slice()).as_slice()),
    }
}

/// The decimal sums, and any number where some member has a digit above 9.
#[tactic(auto, unfolding(crate::specs::Sets::decimal_add_set))]
pub fn decimal_add_set(digits: u32, a: &Form, b: &Form, carry: Tri) -> Form
    requires some { 1 ≤ digits }
    requires few { digits ≤ 4 }
    requires first_normal { IsNormal (16 ^ digits) a.now }
    requires second_normal { IsNormal (16 ^ digits) b.now }
    ensures { result ≡ sets.decimal_add_set digits a.now b.now carry }
{
    let modulus = power_of_sixteen(digits);
    if !both_decimal(modulus, digits, a, b) {
        return any(modulus);
    }
    match combined(modulus, &DecimalSum { digits }, a, b, &chosen(carry)) {
        Some(sums) => sums,
        None => any(modulus),
    }
}

/// How many numbers of so many digits of 4 bits there are.
#[tactic(auto, using(crate::proofs::Powers::sixteen_power))]
fn power_of_sixteen(digits: u32) -> u32
    requires { digits ≤ 4 }
    ensures value { result ≡ 16 ^ digits }
    ensures small { result ≤ 65536 }
{
    power_of_two(4 * digits)
}

/// Whether no member of two sets has a digit above 9.
fn both_decimal(modulus: u32, digits: u32, a: &Form, b: &Form) -> bool
    requires small { modulus ≤ 65536 }
    requires first_normal { IsNormal modulus a.now }
    requires second_normal { IsNormal modulus b.now }
    ensures { result ≡ (list_all (numbers.is_decimal digits) (members modulus a.now) && list_all (numbers.is_decimal digits) (members modulus b.now)) }
{
    are_decimal(modulus, digits, a) && are_decimal(modulus, digits, b)
}

/// The bytes adjusted to decimal, with CY and AC.
#[tactic(auto, unfolding(crate::specs::Sets::decimal_adjust_set))]
pub fn decimal_adjust_set(a: &Form, carry: Tri, half: Tri) -> Form
    requires { IsNormal 256 a.now }
    ensures { result ≡ sets.decimal_adjust_set a.now carry half }
{
    match combined(256, &DecimalAdjustment, a, &chosen(carry), &chosen(half)) {
        Some(set) => set,
        None => any(256),
    }
}
