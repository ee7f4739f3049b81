//! The join of two sets.

ghost use Rattle.std.specs.Prelude.{◌≡◌, ◌<◌, ◌≤◌};
ghost use Rattle.value_set.specs.Form as forms;
ghost use Rattle.value_set.specs.Form.{IsNormal, IsSpan};
ghost use Rattle.value_set.specs.Joining as joins;
ghost use Rattle.value_set.specs.Merging.{HasRun};

use crate::circle::{above, reach};
use crate::divisor::greatest_common_divisor;
use crate::few::{Few, LONGEST};
use crate::form::{Form, Progression, Stretch, same};
use crate::gathering::{hull, make, steps_to};
use crate::member::inside;
use crate::merging::few_together;

/// The run that a set is drawn from.
pub fn span(modulus: u32, set: &Form) -> Progression
    requires small { modulus ≤ 65536 }
    requires normal { IsNormal modulus set.now }
    ensures value { result ≡ forms.span modulus set.now }
    ensures form { IsSpan modulus result.base result.stride result.count }
{
    match set {
        Form::Values(values) => hull(modulus, values.as_slice()),
        Form::Run(run) => *run,
    }
}

/// All numbers with the remainder of a base, by the greatest power of two that divides a stride and the modulus.
pub fn class(modulus: u32, base: u32, stride: u32) -> Form
    requires positive { 0 < modulus }
    requires small { modulus ≤ 65536 }
    ensures { result ≡ forms.class modulus base stride }
{
    let stride = greatest_common_divisor(stride, modulus);
    make(modulus, base % stride, stride, modulus / stride)
}

/// One run from the base of the first that both are drawn from.
fn candidate(modulus: u32, first: &Progression, second: &Progression) -> Stretch
    requires small { modulus ≤ 65536 }
    requires first_span { IsSpan modulus first.now.base first.now.stride first.now.count }
    requires second_span { IsSpan modulus second.now.base second.now.stride second.now.count }
    ensures value { result ≡ joins.candidate modulus first.now second.now }
    ensures below { result.base < modulus }
{
    let offset = above(modulus, first.base as u32, second.base as u32);
    let strides = greatest_common_divisor(first.stride as u32, second.stride as u32);
    Stretch {
        base: first.base as u32,
        stride: greatest_common_divisor(strides, offset),
        end: greater(reach(first), offset + reach(second)),
    }
}

fn greater(a: u32, b: u32) -> u32
    ensures { result ≡ forms.greater a b }
{
    if a < b { b } else { a }
}

/// The set of a stretch that doesn't go round.
fn stretched(modulus: u32, stretch: &Stretch) -> Form
    requires small { modulus ≤ 65536 }
    requires base_below { stretch.now.base < modulus }
    requires end_below { stretch.now.end < modulus }
    ensures { result ≡ joins.stretched modulus stretch.now }
{
    let count = steps_to(stretch.end, stretch.stride);
    make(modulus, stretch.base, stretch.stride, count)
}

/// Whether the other of two stretches is taken.
fn is_second(modulus: u32, one: &Stretch, other: &Stretch) -> bool
    ensures { result ≡ joins.is_second modulus one.now other.now }
{
    if other.end >= modulus {
        return false;
    }
    if one.end >= modulus {
        return true;
    }
    if other.end == one.end {
        return other.base < one.base;
    }
    other.end < one.end
}

/// One run that two are drawn from.
pub fn join_spans(modulus: u32, first: &Progression, second: &Progression) -> Form
    requires small { modulus ≤ 65536 }
    requires first_span { IsSpan modulus first.now.base first.now.stride first.now.count }
    requires second_span { IsSpan modulus second.now.base second.now.stride second.now.count }
    ensures { result ≡ joins.join_spans modulus first.now second.now }
{
    let one = candidate(modulus, first, second);
    let other = candidate(modulus, second, first);
    if is_second(modulus, &one, &other) {
        return stretched(modulus, &other);
    }
    if one.end < modulus {
        return stretched(modulus, &one);
    }
    class(modulus, one.base, one.stride)
}

/// The join of two lists: all members where they are few together, which where one is within the other are that list.
fn join_lists(modulus: u32, first: &Few<LONGEST>, second: &Few<LONGEST>) -> Form
    requires small { modulus ≤ 65536 }
    requires first_normal { IsNormal modulus (Form.Values first.now) }
    requires second_normal { IsNormal modulus (Form.Values second.now) }
    ensures { result ≡ joins.join modulus (Form.Values first.now) (Form.Values second.now) }
{
    match few_together(first.as_slice(), second.as_slice()) {
        Some(values) => Form::Values(values),
        None => join_spans(
            modulus,
            &hull(modulus, first.as_slice()),
            &hull(modulus, second.as_slice()),
        ),
    }
}

/// The join of two sets that aren't equal, one of which is a run.
fn join_with_run(modulus: u32, first: &Form, second: &Form) -> Form
    requires small { modulus ≤ 65536 }
    requires first_normal { IsNormal modulus first.now }
    requires second_normal { IsNormal modulus second.now }
    requires one_run { HasRun first.now second.now }
    ensures { result ≡ joins.join modulus first.now second.now }
{
    if inside(modulus, second, first) {
        return *first;
    }
    if inside(modulus, first, second) {
        return *second;
    }
    join_spans(modulus, &span(modulus, first), &span(modulus, second))
}

/// The join of two sets: a set that includes both.
pub fn join(modulus: u32, first: &Form, second: &Form) -> Form
    requires small { modulus ≤ 65536 }
    requires first_normal { IsNormal modulus first.now }
    requires second_normal { IsNormal modulus second.now }
    ensures { result ≡ joins.join modulus first.now second.now }
{
    if same(first, second) {
        return *first;
    }
    match (first, second) {
        (Form::Values(one), Form::Values(other)) => join_lists(modulus, one, other),
        (Form::Values(_), Form::Run(_)) => join_with_run(modulus, first, second),
        (Form::Run(_), _) => join_with_run(modulus, first, second),
    }
}
