//! All results of an operation on the members of sets.

ghost use Rattle.std.specs.Prelude.{◌≡◌, ℕ, ◌+◌, ◌*◌, ◌<◌, ◌≤◌, IfSome, length, map};
ghost use Rattle.std.specs.List.{flat_map};
ghost use Rattle.value_set.specs.Form as forms;
ghost use Rattle.value_set.specs.Form.{Ascends, IsNormal, members};
ghost use Rattle.value_set.specs.Operations.{StaysBelow};
ghost use Rattle.value_set.specs.Summing as sums;

use crate::form::Form;
use crate::gathering::{ROOM, put, set_of};
use crate::member::{count, nth};
use crate::summing::single;
use arrayvec::ArrayVec;

/// An operation on two numbers and a carry below a modulus. One that has no carry is combined with the set of 0.
pub trait Operation {
    ghost modulus: { Self → ℕ };

    ghost answer: { Self → ℕ → ℕ → ℕ → ℕ };

    /// The result.
    fn apply(&self, x: u16, y: u16, carry: u16) -> u16
        requires small { modulus self.now ≤ 65536 }
        requires x_below { x < modulus self.now }
        requires y_below { y < modulus self.now }
        requires carry_below { carry < modulus self.now }
        ensures { result ≡ answer self.now x y carry };

    ghost stays_below: { (operation : Self) → StaysBelow (modulus operation) (answer operation) };
}

/// The set of all results, of at most 256 combinations. Of sets of one number it is the one result.
pub fn combine<O: Operation>(
    modulus: u32,
    operation: &O,
    first: &Form,
    second: &Form,
    carry: &Form,
) -> Form
    requires small { modulus ≤ 65536 }
    requires first_normal { IsNormal modulus first.now }
    requires second_normal { IsNormal modulus second.now }
    requires carry_normal { IsNormal modulus carry.now }
    requires width { O.modulus operation.now ≡ modulus }
    requires few { length (members modulus first.now) * (length (members modulus second.now) * length (members modulus carry.now)) ≤ 256 }
    ensures { result ≡ sums.combine modulus (O.answer operation.now) first.now second.now carry.now }
{
    if let (Some(x), Some(y), Some(z)) = (alone(first), alone(second), alone(carry)) {
        return single(operation.apply(x, y, z));
    }
    let mut values = ArrayVec::new();
    for place in 0..count(modulus, first) {
        put_second(
            modulus,
            operation,
            nth(modulus, first, place),
            second,
            carry,
            &mut values,
        );
    }
    set_of(modulus, values.as_slice())
}

/// The number of a set of one.
pub fn alone(set: &Form) -> Option<u16>
    ensures { IfSome result (λ v. set.now ≡ sums.single v) }
{
    match set {
        Form::Values(values) => match values.as_slice() {
            [value] => Some(*value),
            _ => None,
        },
        Form::Run(_) => None,
    }
}

/// Puts the results of one first number.
fn put_second<O: Operation>(
    modulus: u32,
    operation: &O,
    x: u16,
    second: &Form,
    carry: &Form,
    values: &mut ArrayVec<u16, ROOM>,
)
    requires small { modulus ≤ 65536 }
    requires second_normal { IsNormal modulus second.now }
    requires carry_normal { IsNormal modulus carry.now }
    requires width { O.modulus operation.now ≡ modulus }
    requires x_below { x < modulus }
    requires ascending { Ascends 0 65536 values.old.items }
    requires room { length values.old.items + length (members modulus second.now) * length (members modulus carry.now) ≤ 256 }
    ensures items { values.new.items ≡ forms.put_all values.old.items (flat_map (λ y. map (λ z. O.answer operation.now x y z) (members modulus carry.now)) (members modulus second.now)) }
    ensures still { Ascends 0 65536 values.new.items }
    ensures longer { length values.new.items ≤ length values.old.items + length (members modulus second.now) * length (members modulus carry.now) }
{
    for place in 0..count(modulus, second) {
        put_carry(
            modulus,
            operation,
            x,
            nth(modulus, second, place),
            carry,
            values,
        );
    }
}

/// Puts the results of one first and one second number.
fn put_carry<O: Operation>(
    modulus: u32,
    operation: &O,
    x: u16,
    y: u16,
    carry: &Form,
    values: &mut ArrayVec<u16, ROOM>,
)
    requires small { modulus ≤ 65536 }
    requires carry_normal { IsNormal modulus carry.now }
    requires width { O.modulus operation.now ≡ modulus }
    requires x_below { x < modulus }
    requires y_below { y < modulus }
    requires ascending { Ascends 0 65536 values.old.items }
    requires room { length values.old.items + length (members modulus carry.now) ≤ 256 }
    ensures items { values.new.items ≡ forms.put_all values.old.items (map (λ z. O.answer operation.now x y z) (members modulus carry.now)) }
    ensures still { Ascends 0 65536 values.new.items }
    ensures longer { length values.new.items ≤ length values.old.items + length (members modulus carry.now) }
{
    for place in 0..count(modulus, carry) {
        put(values, operation.apply(x, y, nth(modulus, carry, place)));
    }
}
