//! Calls over all samples.

ghost use Rattle.std.specs.Prelude.{◌*◌, ◌≤◌, length, IsTrue};
ghost use Rattle.value_set.specs.Form.{members as members_of};

use crate::bits::{add_carries, add_decimal_sums};
use crate::operations::{CarriedSum, OddBits};
use crate::sums::Sum;
use std::alloc::{AllocError, Global};
use value_bits::w8;
use value_set::Vs8;

/// A call on two sets.
#[derive(Clone, Copy)]
pub enum Call<'a> {
    Twice,
    Within,
    Join,
    /// Up to the next of these stops.
    Widen(&'a [u8]),
    Add,
    Sub,
    Cut,
    /// With each of these carries.
    Combine(&'a Vs8),
    And,
    Or,
    Xor,
    DecimalAdd,
    Agreed,
}

/// Adds what a call answers of two sets.
fn add_answer(sum: &mut Sum, call: Call<'_>, one: &Vs8, other: &Vs8) {
    match call {
        Call::Twice => sum.add_set(&one.twice()),
        Call::Within => sum.add(u32::from(one.within(other))),
        Call::Join => sum.add_set(&one.join(other)),
        Call::Widen(stops) => sum.add_set(&one.widen(other, stops)),
        Call::Add => sum.add_set(&one.add(other)),
        Call::Sub => sum.add_set(&one.sub(other)),
        Call::Cut => add_cuts(sum, one, other),
        Call::Combine(carry) => add_combined(sum, one, other, carry),
        Call::And => sum.add_set(&w8::and(one, other)),
        Call::Or => sum.add_set(&w8::or(one, other)),
        Call::Xor => sum.add_set(&w8::xor(one, other)),
        Call::DecimalAdd => add_decimal_sums(sum, one, other),
        Call::Agreed => add_carries(sum, one, other),
    }
}

/// What a call answers of each pair of sets.
pub fn over_pairs(all: &[Vs8], call: Call<'_>) -> Sum {
    let mut sum = Sum::new();
    for one in all {
        for other in all {
            add_answer(&mut sum, call, one, other);
        }
    }
    sum
}

/// How many members a set has, each by its place, and each number that it has.
fn add_members(sum: &mut Sum, set: &Vs8) {
    let count = set.count();
    sum.add(count);
    for place in 0..count {
        sum.add(u32::from(set.nth(place)));
    }
    for number in 0..=u8::MAX {
        sum.add(u32::from(set.has(number)));
    }
}

/// The members of each set.
pub fn members(all: &[Vs8]) -> Sum {
    let mut sum = Sum::new();
    for set in all {
        add_members(&mut sum, set);
    }
    sum
}

/// The least and the greatest member of each set.
pub fn ends(all: &[Vs8]) -> Sum {
    let mut sum = Sum::new();
    for set in all {
        sum.add(u32::from(set.least()));
        sum.add(u32::from(set.greatest()));
    }
    sum
}

/// All numbers, each number, and each run from 9Ch on, also those that are none.
pub fn runs() -> Sum {
    let mut sum = Sum::new();
    sum.add_set(&Vs8::any());
    for number in 0..=u8::MAX {
        sum.add_set(&Vs8::one(number));
        for count in 0..=258 {
            sum.add_found(&Vs8::run(0x9C, number, count));
        }
    }
    sum
}

/// Adds the numbers of a set, by their places.
fn add_numbers(numbers: &mut Vec<u8>, set: &Vs8) -> Result<(), AllocError> {
    for place in 0..set.count() {
        numbers.push(set.nth(place))?;
    }
    Ok(())
}

/// No number, and the members of two sets one after another, often more than 256.
pub fn gathered(alloc: Global, all: &[Vs8]) -> Result<Sum, AllocError> {
    let mut sum = Sum::new();
    sum.add_found(&Vs8::gather(&[]));
    for (one, other) in all.iter().zip(all.iter().rev()) {
        let mut numbers = Vec::new(alloc);
        add_numbers(&mut numbers, one)?;
        add_numbers(&mut numbers, other)?;
        sum.add_found(&Vs8::gather(&numbers));
    }
    Ok(sum)
}

/// What windows leave of a set: none, all of them, more than that, and one from the least member of another as long as it has members.
fn add_cuts(sum: &mut Sum, one: &Vs8, other: &Vs8) {
    sum.add_found(&one.cut(0x00, 0));
    sum.add_found(&one.cut(0x9C, 256));
    sum.add_found(&one.cut(0x10, u32::MAX));
    sum.add_found(&one.cut(first_of(other), other.count()));
}

/// The first member of a set.
fn first_of(set: &Vs8) -> u8 {
    if set.count() == 0 { 0 } else { set.nth(0) }
}

/// Whether two sets and carries have at most 256 combinations.
fn has_few_results(first: &Vs8, second: &Vs8, carry: &Vs8) -> bool
    ensures { IsTrue result
        → length (members_of 256 first.now) * (length (members_of 256 second.now) * length (members_of 256 carry.now)) ≤ 256 }
{
    let pairs = u64::from(second.count()) * u64::from(carry.count());
    u64::from(first.count()) * pairs <= 256
}

/// Adds the sums with carries, and the bits that an odd number has, where there are few.
fn add_combined(sum: &mut Sum, first: &Vs8, second: &Vs8, carry: &Vs8) {
    if has_few_results(first, second, carry) {
        let (sums, bits) = (CarriedSum, OddBits);
        sum.add_set(&Vs8::combine(&sums, first, second, carry));
        sum.add_set(&Vs8::combine(&bits, first, second, carry));
        let (CarriedSum, OddBits) = (sums, bits);
    }
}
