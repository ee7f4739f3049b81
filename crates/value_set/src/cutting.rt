//! The cut of a set to a window.

ghost use Rattle.std.specs.Prelude.{◌≡◌, ℕ, ◌+◌, ◌-◌, ◌*◌, ◌/◌, ◌%◌, ◌<◌, ◌≤◌, length, nat_lt};
ghost use Rattle.std.specs.List.{filter};
ghost use Rattle.value_set.specs.Form as forms;
ghost use Rattle.value_set.specs.Form.{Fits, IsNormal, IsNormalRun};
ghost use Rattle.value_set.specs.Cutting as cuts;

use crate::circle::above;
use crate::few::{Few, LONGEST};
use crate::form::{Form, Progression};
use crate::gathering::make;
use crate::joining::join;

/// How many of `base + i * stride`, for `i` below the count, lie below an end.
fn count_below(end: u32, base: u32, stride: u32, count: u32) -> u32
    requires strides { 0 < stride }
    ensures value { result ≡ cuts.count_below end base stride count }
    ensures less { result ≤ count }
{
    if base >= end {
        return 0;
    }
    let most = (end - 1 - base) / stride;
    if most < count { most + 1 } else { count }
}

/// The set of a run, where it has numbers.
fn part(modulus: u32, base: u32, stride: u32, count: u32) -> Option<Form>
    requires small { modulus ≤ 65536 }
    requires base_small { base < 131072 }
    requires fits { 1 ≤ count → Fits modulus stride count }
    ensures value { result ≡ cuts.part modulus base stride count }
    ensures form { cuts.IfThere (λ set. IsNormal modulus set) result }
{
    match count {
        0 => None,
        count => Some(make(modulus, base, stride, count)),
    }
}

/// What there is of two parts.
fn join_parts(modulus: u32, front: &Option<Form>, behind: &Option<Form>) -> Option<Form>
    requires small { modulus ≤ 65536 }
    requires front_normal { cuts.IfThere (λ set. IsNormal modulus set) front.now }
    requires behind_normal { cuts.IfThere (λ set. IsNormal modulus set) behind.now }
    ensures { result ≡ cuts.join_parts modulus front.now behind.now }
{
    match (front, behind) {
        (None, _) => *behind,
        (Some(_), None) => *front,
        (Some(one), Some(other)) => Some(join(modulus, one, other)),
    }
}

/// A run is cut in front of the turn and behind it, both seen from the low end of the window.
fn cut_run(modulus: u32, run: &Progression, low: u32, len: u32) -> Option<Form>
    requires small { modulus ≤ 65536 }
    requires normal { IsNormalRun modulus run.now.base run.now.stride run.now.count }
    requires low_below { low < modulus }
    ensures { result ≡ cuts.cut_run modulus run.now low len }
{
    let stride = run.stride as u32;
    let base = above(modulus, low, run.base as u32);
    let front = count_below(modulus, base, stride, run.count);
    let turned = behind_turn(modulus, base + front * stride);
    let near = count_below(len, base, stride, front);
    let far = count_below(len, turned, stride, run.count - front);
    let first = part(modulus, run.base as u32, stride, near);
    let second = part(modulus, (low + turned) % modulus, stride, far);
    join_parts(modulus, &first, &second)
}

/// A number less the modulus, or 0.
fn behind_turn(modulus: u32, number: u32) -> u32
    ensures { result ≡ number - modulus }
{
    number.saturating_sub(modulus)
}

/// The numbers of a list in the window.
fn cut_list(modulus: u32, values: &Few<LONGEST>, low: u32, len: u32) -> Few<LONGEST>
    requires small { modulus ≤ 65536 }
    requires normal { IsNormal modulus (Form.Values values.now) }
    requires low_below { low < modulus }
    ensures { result ≡ filter (λ v. nat_lt (forms.above modulus low v) len) values.now }
{
    let mut kept = Few::new();
    for value in values.as_slice() {
        if above(modulus, low, *value as u32) < len {
            kept.push(*value);
        }
    }
    kept
}

/// The members less than a length above the low end of a window, round the circle; more numbers where it is a run that
/// goes round.
pub fn cut(modulus: u32, set: &Form, low: u32, len: u32) -> Option<Form>
    requires small { modulus ≤ 65536 }
    requires normal { IsNormal modulus set.now }
    requires low_below { low < modulus }
    ensures { result ≡ cuts.cut modulus set.now low len }
{
    match set {
        Form::Values(values) => list_or_none(&cut_list(modulus, values, low, len)),
        Form::Run(run) => cut_run(modulus, run, low, len),
    }
}

fn list_or_none(values: &Few<LONGEST>) -> Option<Form>
    ensures { result ≡ cuts.list_or_none values.now }
{
    if values.is_empty() {
        None
    } else {
        Some(Form::Values(*values))
    }
}
