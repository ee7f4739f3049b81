//! Sets from numbers: lists where they are few, else runs that they are drawn from.

ghost use Rattle.std.specs.Prelude.{◌≡◌, ℕ, ◌+◌, ◌-◌, ◌*◌, ◌/◌, ◌%◌, ◌<◌, ◌≤◌, [], ◌∷◌, length, take, List, All, IsTrue, map, slice_index};
ghost use Rattle.value_set.specs.Form as forms;
ghost use Rattle.value_set.specs.Form.{Ascends, Fits, IsNormal, IsSpan};

use crate::circle::above;
use crate::divisor::greatest_common_divisor;
use crate::few::{Few, LONGEST};
use crate::form::{Form, Progression};
use crate::gap::Gap;
use crate::number::Number;
use arrayvec::ArrayVec;

/// How many numbers are gathered at once.
pub const ROOM: usize = 256;

/// Whether a number is above the last one of a list, where there is one.
fn is_behind(values: &[u16], value: u16) -> bool
    ensures { IsTrue result → 1 ≤ length values.now → slice_index values.now (length values.now - 1) < value }
{
    match values.len() {
        0 => true,
        len => values[len - 1] < value,
    }
}

/// Puts a number in its place among ascending ones, unless it is there.
pub fn put(values: &mut ArrayVec<u16, ROOM>, value: u16)
    requires room { length values.old.items < 256 }
    requires ascending { Ascends 0 65536 values.old.items }
    ensures items { values.new.items ≡ forms.put value values.old.items }
    ensures still { Ascends 0 65536 values.new.items }
    ensures longer { length values.new.items ≤ length values.old.items + 1 }
{
    if is_behind(values.as_slice(), value) {
        values.push(value);
        return;
    }
    match values.as_slice().binary_search(&value) {
        Ok(_) => {}
        Err(place) => values.insert(place, value),
    }
}

/// The set of some ascending numbers.
pub fn set_of(modulus: u32, values: &[u16]) -> Form
    requires small { modulus ≤ 65536 }
    requires some { 1 ≤ length values.now }
    requires ascending { Ascends 0 modulus values.now }
    ensures { result ≡ forms.set_of modulus values.now }
{
    if values.len() <= LONGEST {
        return Form::Values(Few::from_slice(values));
    }
    let run = hull(modulus, values);
    make(modulus, run.base as u32, run.stride as u32, run.count)
}

/// The run that ascending numbers are drawn from.
pub fn hull(modulus: u32, values: &[u16]) -> Progression
    requires small { modulus ≤ 65536 }
    requires some { 1 ≤ length values.now }
    requires ascending { Ascends 0 modulus values.now }
    ensures value { result ≡ forms.hull modulus values.now }
    ensures form { IsSpan modulus result.base result.stride result.count }
{
    let base = hull_base(modulus, values);
    let stride = common_stride(modulus, base, values);
    let count = steps_to(farthest(modulus, base, values), stride as u32);
    Progression {
        base,
        stride,
        count,
    }
}

/// How many numbers there are in steps of a stride up to an end. With stride 0 there is one.
pub fn steps_to(end: u32, stride: u32) -> u32
    requires { end < 131072 }
    ensures { result ≡ end / stride + 1 }
{
    match stride {
        0 => 1,
        stride => end / stride + 1,
    }
}

/// The number behind the widest gap on the circle, the least one of several.
fn hull_base(modulus: u32, values: &[u16]) -> u16
    requires small { modulus ≤ 65536 }
    requires some { 1 ≤ length values.now }
    requires ascending { Ascends 0 modulus values.now }
    ensures value { result ≡ forms.hull_base modulus values.now }
    ensures below { result < modulus }
{
    let mut gap = Gap::around(modulus, values[0], values[values.len() - 1]);
    for value in &values[1..] {
        gap = gap.past(*value);
    }
    gap.base
}

/// The greatest common divisor of the distances from a number up to others.
pub fn common_stride<N: Number>(modulus: u32, from: u16, list: &[N]) -> u16
    requires small { modulus ≤ 65536 }
    requires from_below { from < modulus }
    requires below { All (λ n. N.number n < modulus) list.now }
    ensures { result ≡ forms.common_stride modulus from (map N.number list.now) }
{
    let mut stride = 0;
    for number in list {
        if stride == 1 {
            return 1;
        }
        stride = greatest_common_divisor(
            stride,
            above(modulus, from as u32, number.number() as u32),
        );
    }
    stride as u16
}

/// The greatest of the distances from a number up to others.
pub fn farthest<N: Number>(modulus: u32, from: u16, list: &[N]) -> u32
    requires small { modulus ≤ 65536 }
    requires from_below { from < modulus }
    requires below { All (λ n. N.number n < modulus) list.now }
    ensures value { result ≡ forms.farthest modulus from (map N.number list.now) }
    ensures around { result < modulus }
{
    let mut most = 0;
    for number in list {
        let distance = above(modulus, from as u32, number.number() as u32);
        if most < distance {
            most = distance;
        }
    }
    most
}

/// The set of `base + i * stride` modulo the modulus, for each `i` below the count.
pub fn make(modulus: u32, base: u32, stride: u32, count: u32) -> Form
    requires small { modulus ≤ 65536 }
    requires base_small { base < 131072 }
    requires fits { Fits modulus stride count }
    ensures value { result ≡ forms.make modulus base stride count }
    ensures form { IsNormal modulus result }
{
    if count <= LONGEST as u32 {
        return Form::Values(few_steps(modulus, base, stride, count));
    }
    let base = if count * stride == modulus {
        base % stride
    } else {
        base % modulus
    };
    Form::Run(Progression {
        base: base as u16,
        stride: stride as u16,
        count,
    })
}

/// The numbers of a short run in ascending order.
fn few_steps(modulus: u32, base: u32, stride: u32, count: u32) -> Few<LONGEST>
    requires small { modulus ≤ 65536 }
    requires base_small { base < 131072 }
    requires few { count ≤ 16 }
    requires fits { Fits modulus stride count }
    ensures { result ≡ forms.ascending (forms.steps modulus base stride count) }
{
    let mut values = ArrayVec::new();
    for place in 0..count {
        put(&mut values, ((base + place * stride) % modulus) as u16);
    }
    Few::from_slice(values.as_slice())
}
