//! Widening: a set that holds both sets, whose ends are stopped by marks alone.

ghost use Rattle.std.specs.Prelude.{◌≡◌, ℕ, ◌+◌, ◌-◌, ◌*◌, ◌/◌, ◌<◌, ◌≤◌, All, map, length};
ghost use Rattle.value_set.specs.Form.{IsNormal, IsSpan};
ghost use Rattle.value_set.specs.Widening as widens;

use crate::circle::last_of;
use crate::form::{Form, Progression, same};
use crate::gathering::{make, steps_to};
use crate::joining::{class, span};
use crate::number::Number;
use crate::sets::join;

/// The best mark so far with one more seen: the greatest of those at most a bound.
fn nearer_below(bound: u32, best: Option<u32>, mark: u32) -> Option<u32>
    ensures { result ≡ widens.nearer_below bound best mark }
{
    if bound < mark {
        return best;
    }
    match best {
        Some(other) if mark <= other => Some(other),
        _ => Some(mark),
    }
}

/// The greatest mark that is at most a bound.
fn mark_at_most<N: Number>(marks: &[N], bound: u32) -> Option<u32>
    ensures { result ≡ widens.mark_at_most bound (map N.number marks.now) }
{
    let mut best = None;
    for mark in marks {
        best = nearer_below(bound, best, mark.number() as u32);
    }
    best
}

/// The best mark so far with one more seen: the least of those above a bound.
fn nearer_above(bound: u32, best: Option<u32>, mark: u32) -> Option<u32>
    ensures { result ≡ widens.nearer_above bound best mark }
{
    if bound >= mark {
        return best;
    }
    match best {
        Some(other) if other <= mark => Some(other),
        _ => Some(mark),
    }
}

/// The least mark above a bound.
fn mark_above<N: Number>(marks: &[N], bound: u32) -> Option<u32>
    ensures { result ≡ widens.mark_above bound (map N.number marks.now) }
{
    let mut best = None;
    for mark in marks {
        best = nearer_above(bound, best, mark.number() as u32);
    }
    best
}

/// Down in steps to the least number that isn't below a mark.
fn down_to(base: u32, stride: u32, mark: u32) -> u32
    requires small { base < 131072 }
    requires at_most { mark ≤ base }
    ensures { result ≡ widens.down_to base stride mark }
{
    match stride {
        0 => base,
        stride => base - (base - mark) / stride * stride,
    }
}

/// Up in steps to the greatest number below a mark.
fn up_to(last: u32, stride: u32, mark: u32) -> u32
    requires small { mark ≤ 65536 }
    requires higher { last < mark }
    ensures value { result ≡ widens.up_to last stride mark }
    ensures below { result < mark }
{
    match stride {
        0 => last,
        stride => last + (mark - 1 - last) / stride * stride,
    }
}

/// The first number of the widened run.
fn first_widened<N: Number>(run: &Progression, held: &Progression, marks: &[N]) -> Option<u32>
    ensures { result ≡ widens.first_widened run.now held.now (map N.number marks.now) }
{
    if run.base == held.base {
        return Some(run.base as u32);
    }
    match mark_at_most(marks, run.base as u32) {
        Some(mark) => Some(down_to(run.base as u32, run.stride as u32, mark)),
        None => None,
    }
}

/// The last number of the widened run.
fn last_widened<N: Number>(
    modulus: u32,
    run: &Progression,
    held: &Progression,
    marks: &[N],
) -> Option<u32>
    requires small { modulus ≤ 65536 }
    requires run_span { IsSpan modulus run.now.base run.now.stride run.now.count }
    requires held_span { IsSpan modulus held.now.base held.now.stride held.now.count }
    requires once { widens.last_of run.now < modulus }
    requires marks_below { All (λ n. N.number n < modulus) marks.now }
    ensures { result ≡ widens.last_widened modulus run.now held.now (map N.number marks.now) }
{
    let last = last_of(run);
    if last == last_of(held) % modulus {
        return Some(last);
    }
    match mark_above(marks, last) {
        Some(mark) => Some(up_to(last, run.stride as u32, mark)),
        None => None,
    }
}

/// A run whose first and last number go on to the next marks, where they aren't those of the set held.
fn widen_span<N: Number>(modulus: u32, run: &Progression, held: &Progression, marks: &[N]) -> Form
    requires small { modulus ≤ 65536 }
    requires run_span { IsSpan modulus run.now.base run.now.stride run.now.count }
    requires held_span { IsSpan modulus held.now.base held.now.stride held.now.count }
    requires marks_below { All (λ n. N.number n < modulus) marks.now }
    ensures { result ≡ widens.widen_span modulus run.now held.now (map N.number marks.now) }
{
    if marks.is_empty() {
        return class(modulus, run.base as u32, run.stride as u32);
    }
    if last_of(run) >= modulus {
        return class(modulus, run.base as u32, run.stride as u32);
    }
    match first_widened(run, held, marks) {
        Some(first) => match last_widened(modulus, run, held, marks) {
            Some(last) => make(
                modulus,
                first,
                run.stride as u32,
                steps_to(last - first, run.stride as u32),
            ),
            None => class(modulus, run.base as u32, run.stride as u32),
        },
        None => class(modulus, run.base as u32, run.stride as u32),
    }
}

/// A set that holds both sets. Its ends stop only at marks, so it can't grow often.
pub fn widen<N: Number>(modulus: u32, held: &Form, new: &Form, marks: &[N]) -> Form
    requires small { modulus ≤ 65536 }
    requires held_normal { IsNormal modulus held.now }
    requires new_normal { IsNormal modulus new.now }
    requires marks_below { All (λ n. N.number n < modulus) marks.now }
    ensures { result ≡ widens.widen modulus held.now new.now (map N.number marks.now) }
{
    let both = join(modulus, held, new);
    if same(&both, held) {
        return both;
    }
    widen_span(modulus, &span(modulus, &both), &span(modulus, held), marks)
}
