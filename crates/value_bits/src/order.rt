//! Which numbers are at least others, and which are equal, over the members of two sets.

ghost use Rattle.std.specs.Prelude.{◌≡◌, ℕ, ◌*◌, ◌≤◌, nat_le, ◌==◌, ◌↔◌, IsTrue};
ghost use Rattle.value_set.specs.Form.{Ascends, Has, IsNormal};
ghost use Rattle.value_set.specs.Summing.{count_of, single};
ghost use Rattle.value_bits.specs.Flags as flags;
ghost use Rattle.value_bits.specs.Flags.{IsFlag};
ghost use Rattle.value_bits.specs.Order.{Share};

use crate::flags::{Flag, agreed};
use crate::tri::Tri;
use value_set::Form;
use value_set::sets::{count, greatest, least};

/// What is known of whether a number of a set is at least one of another: known where at most 256 combinations agree.
pub fn at_least(modulus: u32, first: &Form, second: &Form) -> Tri
    requires small { modulus ≤ 65536 }
    requires first_normal { IsNormal modulus first.now }
    requires second_normal { IsNormal modulus second.now }
    ensures value { result ≡ flags.agreed modulus (λ x y z. nat_le y x) first.now second.now (single 0) }
    ensures holds { (x y : ℕ) → Has modulus first.now x → Has modulus second.now y → IsFlag result (nat_le y x) }
{
    if count(modulus, first) as u64 * count(modulus, second) as u64 > 256 {
        return Tri::Either;
    }
    at_least_few(modulus, first, second)
}

/// The same, of at most 256 combinations. The ends of the sets decide it.
fn at_least_few(modulus: u32, first: &Form, second: &Form) -> Tri
    requires small { modulus ≤ 65536 }
    requires first_normal { IsNormal modulus first.now }
    requires second_normal { IsNormal modulus second.now }
    requires few { count_of modulus first.now * count_of modulus second.now ≤ 256 }
    ensures { result ≡ flags.agreed modulus (λ x y z. nat_le y x) first.now second.now (single 0) }
{
    if greatest(modulus, second) <= least(modulus, first) {
        Tri::One
    } else if greatest(modulus, first) < least(modulus, second) {
        Tri::Zero
    } else {
        Tri::Either
    }
}

/// That two numbers below a modulus are equal.
#[derive(Clone, Copy)]
struct Equality {
    modulus: u32,
}

impl Flag for Equality {
    ghost use Rattle.std.specs.Prelude.{◌==◌};

    ghost modulus = { λ flag. flag.modulus };

    ghost value = { λ flag x y carry. x == y };

    fn is_set(&self, x: u16, y: u16, _carry: u16) -> bool {
        x == y
    }
}

/// What is known of whether a number of a set is one of another: known where at most 256 combinations agree.
pub fn equal(modulus: u32, first: &Form, second: &Form) -> Tri
    requires small { modulus ≤ 65536 }
    requires wide { 2 ≤ modulus }
    requires first_normal { IsNormal modulus first.now }
    requires second_normal { IsNormal modulus second.now }
    ensures value { result ≡ flags.agreed modulus (λ x y z. x == y) first.now second.now (single 0) }
    ensures holds { (x y : ℕ) → Has modulus first.now x → Has modulus second.now y → IsFlag result (x == y) }
{
    match (first, second) {
        (Form::Values(xs), Form::Values(ys)) => equal_lists(modulus, xs.as_slice(), ys.as_slice()),
        _ => agreed(modulus, &Equality { modulus }, first, second, Tri::Zero),
    }
}

/// Numbers of lists without a common one are never equal, and else they always are only where there is one of each.
fn equal_lists(modulus: u32, xs: &[u16], ys: &[u16]) -> Tri
    requires small { modulus ≤ 65536 }
    requires first_normal { IsNormal modulus (Form.Values xs.now) }
    requires second_normal { IsNormal modulus (Form.Values ys.now) }
    ensures { result ≡ flags.agreed modulus (λ x y z. x == y) (Form.Values xs.now) (Form.Values ys.now) (single 0) }
{
    if !share(xs, ys) {
        return Tri::Zero;
    }
    if xs.len() + ys.len() == 2 {
        Tri::One
    } else {
        Tri::Either
    }
}

/// Whether ascending lists have a common number.
fn share(xs: &[u16], ys: &[u16]) -> bool
    requires xs_ascend { Ascends 0 65536 xs.now }
    requires ys_ascend { Ascends 0 65536 ys.now }
    ensures { IsTrue result ↔ Share xs.now ys.now }
{
    match (xs, ys) {
        ([x, xs_behind @ ..], [y, ys_behind @ ..]) => {
            if x == y {
                true
            } else if x < y {
                share(xs_behind, ys)
            } else {
                share(xs, ys_behind)
            }
        }
        _ => false,
    }
}
