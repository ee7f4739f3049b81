//! Sets from lists of any length, and from runs.

ghost use Rattle.std.specs.Prelude.{◌≡◌, ℕ, ◌+◌, ◌-◌, ◌*◌, ◌<◌, ◌≤◌, ◌↔◌, length, map, All, IsNone, IfSome};
ghost use Rattle.std.specs.List.{Contains};
ghost use Rattle.value_set.specs.Form as forms;
ghost use Rattle.value_set.specs.Form.{Has, IsNormal};
ghost use Rattle.value_set.specs.Collecting.{IsNoRun};

use crate::form::Form;
use crate::gathering::{ROOM, make, put, set_of};
use crate::long::gather_long;
use crate::number::Number;
use arrayvec::ArrayVec;

/// The set of some numbers. There is none of an empty list.
pub fn gather<N: Number>(modulus: u32, list: &[N]) -> Option<Form>
    requires small { modulus ≤ 65536 }
    requires below { All (λ n. N.number n < modulus) list.now }
    ensures none { IsNone result ↔ (length list.now ≡ 0) }
    ensures value { IfSome result (λ set. set ≡ forms.gather modulus (map N.number list.now)) }
{
    if list.is_empty() {
        return None;
    }
    if list.len() <= ROOM {
        return Some(gather_short(modulus, list));
    }
    Some(gather_long(modulus, list))
}

/// A list that has room is put in order.
fn gather_short<N: Number>(modulus: u32, list: &[N]) -> Form
    requires small { modulus ≤ 65536 }
    requires below { All (λ n. N.number n < modulus) list.now }
    requires some { 1 ≤ length list.now }
    requires room { length list.now ≤ 256 }
    ensures { result ≡ forms.gather modulus (map N.number list.now) }
{
    let mut values = ArrayVec::new();
    for number in list {
        put(&mut values, number.number());
    }
    set_of(modulus, values.as_slice())
}

/// The set of `base + i * stride` modulo the modulus, for each `i` below the count. There is none without numbers, of
/// one that is there twice, and of a run that goes round.
pub fn run(modulus: u32, base: u16, stride: u16, count: u32) -> Option<Form>
    requires positive { 0 < modulus }
    requires small { modulus ≤ 65536 }
    ensures none { IsNone result ↔ IsNoRun modulus stride count }
    ensures value { IfSome result (λ set. set ≡ forms.make modulus base stride count) }
    ensures normal { IfSome result (λ set. IsNormal modulus set) }
    ensures exact { IfSome result (λ set. (v : ℕ) → Has modulus set v ↔ Contains (forms.steps modulus base stride count) v) }
{
    if count == 0 || count > modulus {
        return None;
    }
    if stride == 0 && count > 1 {
        return None;
    }
    if u64::from(count - 1) * u64::from(stride) >= u64::from(modulus) {
        return None;
    }
    Some(make(modulus, base as u32, stride as u32, count))
}
