//! All flags that an operation sets, over all combinations of members, by one walk.

ghost use Rattle.std.specs.Prelude.{◌≡◌, ℕ, ◌<◌, ◌≤◌, ◌↔◌, ◌&&◌, IsTrue, Bool, false, All, length};
ghost use Rattle.std.specs.List.{list_all};
ghost use Rattle.value_set.specs.Form.{Has, IsNormal};
ghost use Rattle.value_bits.specs.AllFlags.{Place, flag_at, known_at};
ghost use Rattle.value_bits.specs.AllFlags.Place.{First, Second, Third, Fourth};
ghost use Rattle.value_bits.specs.Bits.{IsBit};
ghost use Rattle.value_bits.specs.Sets as sets;
ghost use Rattle.value_bits.specs.Flags as flags;
ghost use Rattle.value_bits.specs.Flags.{IsFlag};

use crate::forming::{chosen, is_few};
use crate::listing::listed;
use crate::tri::Tri;
use value_set::Form;

/// Four flags of one combination.
#[derive(Clone, Copy, Debug, PartialEq, Eq)]
pub struct FourFlags {
    pub first: bool,
    pub second: bool,
    pub third: bool,
    pub fourth: bool,
}

/// What is known of four flags.
#[derive(Clone, Copy, Debug, PartialEq, Eq)]
pub struct FourKnown {
    pub first: Tri,
    pub second: Tri,
    pub third: Tri,
    pub fourth: Tri,
}

/// The flags, up to four, that an operation on two numbers and a carry below a modulus sets.
pub trait AllFlags {
    ghost modulus: { Self → ℕ };

    ghost value: { Self → Place → ℕ → ℕ → ℕ → Bool };

    /// Which of the flags the operation sets. A place without a flag has always the same answer.
    fn are_set(&self, x: u16, y: u16, carry: u16) -> FourFlags
        requires x_below { x < modulus self.now }
        requires y_below { y < modulus self.now }
        requires carry_below { carry < modulus self.now }
        ensures first { result.first ≡ value self.now First x y carry }
        ensures second { result.second ≡ value self.now Second x y carry }
        ensures third { result.third ≡ value self.now Third x y carry }
        ensures fourth { result.fourth ≡ value self.now Fourth x y carry };
}

/// What is known of each of the flags over each member of a set with each of another and a carry. Each combination is
/// worked out once.
pub fn all_agreed<F: AllFlags>(
    modulus: u32,
    operation: &F,
    first: &Form,
    second: &Form,
    carry: Tri,
) -> FourKnown
    requires small { modulus ≤ 65536 }
    requires wide { 2 ≤ modulus }
    requires first_normal { IsNormal modulus first.now }
    requires second_normal { IsNormal modulus second.now }
    requires width { F.modulus operation.now ≡ modulus }
    ensures value { (place : Place)
        → known_at place result ≡ flags.agreed modulus (F.value operation.now place) first.now second.now (sets.chosen carry) }
    ensures holds { (place : Place) (x y bit : ℕ) → Has modulus first.now x → Has modulus second.now y
        → IsBit carry bit → IsFlag (known_at place result) (F.value operation.now place x y bit) }
{
    let carries = chosen(carry);
    if !is_few(modulus, first, second, &carries) {
        return none_known();
    }
    let xs = listed(modulus, first);
    let ys = listed(modulus, second);
    let zs = listed(modulus, &carries);
    all_agreed_of(
        modulus,
        operation,
        xs.as_slice(),
        ys.as_slice(),
        zs.as_slice(),
    )
}

/// None of the flags is known.
fn none_known() -> FourKnown
    ensures { (place : Place) → known_at place result ≡ Tri.Either }
{
    FourKnown {
        first: Tri::Either,
        second: Tri::Either,
        third: Tri::Either,
        fourth: Tri::Either,
    }
}

/// Each is known where all agree. One combination is looked at once.
fn all_agreed_of<F: AllFlags>(
    modulus: u32,
    operation: &F,
    xs: &[u16],
    ys: &[u16],
    carries: &[u16],
) -> FourKnown
    requires width { F.modulus operation.now ≡ modulus }
    requires xs_below { All (λ n. n < modulus) xs.now }
    requires xs_some { 1 ≤ length xs.now }
    requires ys_below { All (λ n. n < modulus) ys.now }
    requires ys_some { 1 ≤ length ys.now }
    requires carries_below { All (λ n. n < modulus) carries.now }
    requires carries_some { 1 ≤ length carries.now }
    ensures { (place : Place)
        → known_at place result ≡ flags.agreed_of (F.value operation.now place) xs.now ys.now carries.now }
{
    let wanted = flags_of(modulus, operation, xs[0], ys[0], carries[0]);
    let all = FourFlags {
        first: true,
        second: true,
        third: true,
        fourth: true,
    };
    if is_alone(xs, ys, carries) {
        return told(wanted, all);
    }
    told(
        wanted,
        carries_keep(modulus, wanted, all, operation, xs, ys, carries),
    )
}

/// The flags of one combination.
fn flags_of<F: AllFlags>(modulus: u32, operation: &F, x: u16, y: u16, carry: u16) -> FourFlags
    requires width { F.modulus operation.now ≡ modulus }
    requires x_below { x < modulus }
    requires y_below { y < modulus }
    requires carry_below { carry < modulus }
    ensures { (place : Place) → flag_at place result ≡ F.value operation.now place x y carry }
{
    operation.are_set(x, y, carry)
}

/// What is known of flags of which some have one value for all combinations.
fn told(wanted: FourFlags, all: FourFlags) -> FourKnown
    ensures { (place : Place) → known_at place result ≡ flags.known_where (flag_at place all) (flag_at place wanted) }
{
    FourKnown {
        first: known_where(all.first, wanted.first),
        second: known_where(all.second, wanted.second),
        third: known_where(all.third, wanted.third),
        fourth: known_where(all.fourth, wanted.fourth),
    }
}

/// Whether there is one combination.
fn is_alone(xs: &[u16], ys: &[u16], carries: &[u16]) -> bool
    ensures { IsTrue result ↔ (length xs.now ≡ 1) × (length ys.now ≡ 1) × (length carries.now ≡ 1) }
{
    xs.len() == 1 && ys.len() == 1 && carries.len() == 1
}

/// A flag that is known.
fn known(flag: bool) -> Tri
    ensures { result ≡ flags.known flag }
{
    if flag { Tri::One } else { Tri::Zero }
}

fn known_where(is_known: bool, flag: bool) -> Tri
    ensures { result ≡ flags.known_where is_known flag }
{
    if is_known { known(flag) } else { Tri::Either }
}

/// Which flags still have their values behind one more combination.
fn still(wanted: FourFlags, held: FourFlags, now: FourFlags) -> FourFlags
    ensures { (place : Place)
        → flag_at place result ≡ (flag_at place held && flags.has_value (flag_at place wanted) (flag_at place now)) }
{
    FourFlags {
        first: held.first && wanted.first == now.first,
        second: held.second && wanted.second == now.second,
        third: held.third && wanted.third == now.third,
        fourth: held.fourth && wanted.fourth == now.fourth,
    }
}

fn is_none(held: FourFlags) -> bool
    ensures { IsTrue result → (place : Place) → flag_at place held ≡ false }
{
    !held.first && !held.second && !held.third && !held.fourth
}

/// Which flags keep their values for each combination. The carries come first, since there are fewest of them.
fn carries_keep<F: AllFlags>(
    modulus: u32,
    wanted: FourFlags,
    held: FourFlags,
    operation: &F,
    xs: &[u16],
    ys: &[u16],
    carries: &[u16],
) -> FourFlags
    requires width { F.modulus operation.now ≡ modulus }
    requires xs_below { All (λ n. n < modulus) xs.now }
    requires ys_below { All (λ n. n < modulus) ys.now }
    requires carries_below { All (λ n. n < modulus) carries.now }
    ensures { (place : Place)
        → flag_at place result ≡ (flag_at place held && list_all (λ z. list_all (λ x. list_all (λ y. flags.has_value (flag_at place wanted) (F.value operation.now place x y z)) ys.now) xs.now) carries.now) }
{
    let mut left = held;
    for carry in carries {
        if is_none(left) {
            return left;
        }
        left = rows_keep(modulus, wanted, left, operation, xs, ys, *carry);
    }
    left
}

fn rows_keep<F: AllFlags>(
    modulus: u32,
    wanted: FourFlags,
    held: FourFlags,
    operation: &F,
    xs: &[u16],
    ys: &[u16],
    carry: u16,
) -> FourFlags
    requires width { F.modulus operation.now ≡ modulus }
    requires xs_below { All (λ n. n < modulus) xs.now }
    requires ys_below { All (λ n. n < modulus) ys.now }
    requires carry_below { carry < modulus }
    ensures { (place : Place)
        → flag_at place result ≡ (flag_at place held && list_all (λ x. list_all (λ y. flags.has_value (flag_at place wanted) (F.value operation.now place x y carry)) ys.now) xs.now) }
{
    let mut left = held;
    for x in xs {
        if is_none(left) {
            return left;
        }
        left = row_keeps(modulus, wanted, left, operation, *x, ys, carry);
    }
    left
}

fn row_keeps<F: AllFlags>(
    modulus: u32,
    wanted: FourFlags,
    held: FourFlags,
    operation: &F,
    x: u16,
    ys: &[u16],
    carry: u16,
) -> FourFlags
    requires width { F.modulus operation.now ≡ modulus }
    requires x_below { x < modulus }
    requires ys_below { All (λ n. n < modulus) ys.now }
    requires carry_below { carry < modulus }
    ensures { (place : Place)
        → flag_at place result ≡ (flag_at place held && list_all (λ y. flags.has_value (flag_at place wanted) (F.value operation.now place x y carry)) ys.now) }
{
    let mut left = held;
    for y in ys {
        if is_none(left) {
            return left;
        }
        left = still(wanted, left, flags_of(modulus, operation, x, *y, carry));
    }
    left
}
