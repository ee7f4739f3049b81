//! The calls of a set at any modulus, with all that is promised of them.

ghost use Rattle.std.specs.Prelude.{◌≡◌, ℕ, ◌+◌, ◌-◌, ◌*◌, ◌%◌, ◌<◌, ◌≤◌, ◌↔◌, IsNone, IfSome, All, length, map};
ghost use Rattle.value_set.specs.Calls as calls;
ghost use Rattle.value_set.specs.Calls.{Has, Includes, IsNormal, above, members, single};

pub use crate::collecting::run;
use crate::combining::Operation;
pub use crate::combining::alone;
use crate::form::Form;
pub use crate::gathering::make;
pub use crate::member::nth;
use crate::number::Number;
pub use crate::summing::single;
use crate::summing::{Sign, signed_sum};
use crate::{collecting, combining, cutting, ends, joining, member, summing, widening};

/// The set of all numbers below the modulus.
pub fn any(modulus: u32) -> Form
    requires positive { 0 < modulus }
    requires small { modulus ≤ 65536 }
    ensures value { result ≡ calls.make modulus 0 1 modulus }
    ensures normal { IsNormal modulus result }
    ensures all { (v : ℕ) → v < modulus → Has modulus result v }
{
    make(modulus, 0, 1, modulus)
}

/// A set with each number of a list.
pub fn gather<N: Number>(modulus: u32, list: &[N]) -> Option<Form>
    requires small { modulus ≤ 65536 }
    requires below { All (λ n. N.number n < modulus) list.now }
    ensures none { IsNone result ↔ (length list.now ≡ 0) }
    ensures value { IfSome result (λ set. set ≡ calls.gather modulus (map N.number list.now)) }
    ensures normal { IfSome result (λ set. IsNormal modulus set) }
    ensures holds { IfSome result (λ set. All (λ n. Has modulus set (N.number n)) list.now) }
{
    match collecting::gather(modulus, list) {
        Some(set) => Some(set),
        None => None,
    }
}

/// How many members a set has.
pub fn count(modulus: u32, set: &Form) -> u32
    requires normal { IsNormal modulus set.now }
    ensures value { result ≡ length (members modulus set.now) }
    ensures some { 1 ≤ result }
    ensures most { result ≤ modulus }
{
    member::count(modulus, set)
}

/// The least member of a set.
pub fn least(modulus: u32, set: &Form) -> u16
    requires small { modulus ≤ 65536 }
    requires normal { IsNormal modulus set.now }
    ensures value { result ≡ calls.least modulus set.now }
    ensures member { Has modulus set.now result }
    ensures first { (v : ℕ) → Has modulus set.now v → result ≤ v }
    ensures below { result < modulus }
{
    ends::least(modulus, set)
}

/// The greatest member of a set.
pub fn greatest(modulus: u32, set: &Form) -> u16
    requires small { modulus ≤ 65536 }
    requires normal { IsNormal modulus set.now }
    ensures value { result ≡ calls.greatest modulus set.now }
    ensures member { Has modulus set.now result }
    ensures last { (v : ℕ) → Has modulus set.now v → v ≤ result }
    ensures below { result < modulus }
{
    ends::greatest(modulus, set)
}

/// A set that has the members of both.
pub fn join(modulus: u32, first: &Form, second: &Form) -> Form
    requires small { modulus ≤ 65536 }
    requires first_normal { IsNormal modulus first.now }
    requires second_normal { IsNormal modulus second.now }
    ensures value { result ≡ calls.join modulus first.now second.now }
    ensures normal { IsNormal modulus result }
    ensures own { Includes modulus result first.now }
    ensures others { Includes modulus result second.now }
{
    joining::join(modulus, first, second)
}

/// A set that has the members of one that is held and of a new one.
pub fn widen<N: Number>(modulus: u32, held: &Form, new: &Form, marks: &[N]) -> Form
    requires small { modulus ≤ 65536 }
    requires held_normal { IsNormal modulus held.now }
    requires new_normal { IsNormal modulus new.now }
    requires marks_below { All (λ n. N.number n < modulus) marks.now }
    ensures value { result ≡ calls.widen modulus held.now new.now (map N.number marks.now) }
    ensures normal { IsNormal modulus result }
    ensures held { Includes modulus result held.now }
    ensures added { Includes modulus result new.now }
{
    widening::widen(modulus, held, new, marks)
}

/// The sums of the members of two sets.
pub fn add(modulus: u32, first: &Form, second: &Form) -> Form
    requires small { modulus ≤ 65536 }
    requires first_normal { IsNormal modulus first.now }
    requires second_normal { IsNormal modulus second.now }
    ensures value { result ≡ calls.add modulus first.now second.now }
    ensures normal { IsNormal modulus result }
    ensures holds { (x y : ℕ) → Has modulus first.now x → Has modulus second.now y
        → Has modulus result ((x + y) % modulus) }
    ensures alone { (x y : ℕ) → first.now ≡ single x → second.now ≡ single y → result ≡ single ((x + y) % modulus) }
{
    signed_sum(modulus, Sign::Plus, first, second)
}

/// The differences of the members of two sets.
pub fn sub(modulus: u32, first: &Form, second: &Form) -> Form
    requires small { modulus ≤ 65536 }
    requires first_normal { IsNormal modulus first.now }
    requires second_normal { IsNormal modulus second.now }
    ensures value { result ≡ calls.sub modulus first.now second.now }
    ensures normal { IsNormal modulus result }
    ensures holds { (x y : ℕ) → Has modulus first.now x → Has modulus second.now y
        → Has modulus result ((x + modulus - y) % modulus) }
    ensures alone { (x y : ℕ) → first.now ≡ single x → second.now ≡ single y
        → result ≡ single ((x + modulus - y) % modulus) }
{
    signed_sum(modulus, Sign::Minus, first, second)
}

/// The sums of each member with itself.
pub fn twice(modulus: u32, set: &Form) -> Form
    requires small { modulus ≤ 65536 }
    requires normal { IsNormal modulus set.now }
    ensures value { result ≡ calls.twice modulus set.now }
    ensures normal { IsNormal modulus result }
    ensures holds { (x : ℕ) → Has modulus set.now x → Has modulus result ((x + x) % modulus) }
    ensures alone { (x : ℕ) → set.now ≡ single x → result ≡ single ((x + x) % modulus) }
{
    summing::twice(modulus, set)
}

/// A set with the members in a window.
pub fn cut(modulus: u32, set: &Form, low: u16, len: u32) -> Option<Form>
    requires small { modulus ≤ 65536 }
    requires normal { IsNormal modulus set.now }
    requires low_below { low < modulus }
    ensures none { IsNone result ↔ ((v : ℕ) → Has modulus set.now v → len ≤ above modulus low v) }
    ensures value { result ≡ calls.cut modulus set.now low len }
    ensures normal { IfSome result (λ part. IsNormal modulus part) }
    ensures holds { IfSome result (λ part. (v : ℕ) → Has modulus set.now v → above modulus low v < len → Has modulus part v) }
{
    match cutting::cut(modulus, set, low as u32, len) {
        Some(part) => Some(part),
        None => None,
    }
}

/// All results of an operation, of at most 256 combinations.
pub fn combine<O: Operation>(
    modulus: u32,
    operation: &O,
    first: &Form,
    second: &Form,
    carry: &Form,
) -> Form
    requires small { modulus ≤ 65536 }
    requires first_normal { IsNormal modulus first.now }
    requires second_normal { IsNormal modulus second.now }
    requires carry_normal { IsNormal modulus carry.now }
    requires width { O.modulus operation.now ≡ modulus }
    requires few { length (members modulus first.now) * (length (members modulus second.now) * length (members modulus carry.now)) ≤ 256 }
    ensures value { result ≡ calls.combine modulus (O.answer operation.now) first.now second.now carry.now }
    ensures normal { IsNormal modulus result }
    ensures holds { (x y z : ℕ) → Has modulus first.now x → Has modulus second.now y → Has modulus carry.now z
        → Has modulus result (O.answer operation.now x y z) }
    ensures alone { (x y z : ℕ) → first.now ≡ single x → second.now ≡ single y → carry.now ≡ single z
        → result ≡ single (O.answer operation.now x y z) }
{
    combining::combine(modulus, operation, first, second, carry)
}

/// Sets with the same members are equal.
pub fn same_members(modulus: u32, first: &Form, second: &Form)
    requires first_normal { IsNormal modulus first.now }
    requires second_normal { IsNormal modulus second.now }
    requires same { (v : ℕ) → Has modulus first.now v ↔ Has modulus second.now v }
    ensures { first.now ≡ second.now }
{}
