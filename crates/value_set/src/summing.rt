//! Sums and differences of sets.

ghost use Rattle.std.specs.Prelude.{◌≡◌, ◌+◌, ◌-◌, ◌*◌, ◌<◌, ◌≤◌, ◌↔◌, IfSome, IsTrue, length};
ghost use Rattle.value_set.specs.Form.{IsNormal, IsNormalRun, IsSpan, members};
ghost use Rattle.value_set.specs.Summing as sums;

use crate::circle::reach;
use crate::combining::{Operation, combine};
use crate::divisor::greatest_common_divisor;
use crate::few::{Few, LONGEST};
use crate::form::{Form, Progression};
use crate::gathering::{ROOM, make, put, set_of, steps_to};
use crate::joining::{class, span};
use crate::member::{count, is_whole};
use arrayvec::ArrayVec;

/// Which of sum and difference.
#[derive(Clone, Copy)]
pub enum Sign {
    Plus,
    Minus,
}

/// The sum or the difference of two numbers.
#[derive(Clone, Copy)]
struct Sum {
    modulus: u32,
    sign: Sign,
}

impl Operation for Sum {
    ghost use Rattle.value_set.specs.Operations.{signed_stays};
    ghost use Rattle.value_set.specs.Summing.{signed_answer};

    ghost modulus = { λ operation. operation.modulus };

    ghost answer = { λ operation. signed_answer operation.modulus operation.sign };

    fn apply(&self, x: u16, y: u16, _carry: u16) -> u16 {
        match self.sign {
            Sign::Plus => ((x as u32 + y as u32) % self.modulus) as u16,
            Sign::Minus => ((x as u32 + self.modulus - y as u32) % self.modulus) as u16,
        }
    }

    ghost stays_below = { λ operation. signed_stays operation.modulus operation.sign };
}

/// The set of one number.
pub fn single(value: u16) -> Form
    ensures { result ≡ sums.single value }
{
    let mut values = Few::new();
    values.push(value);
    Form::Values(values)
}

/// Whether two sets have at most 256 combinations.
fn has_few_results(modulus: u32, first: &Form, second: &Form) -> bool
    requires first_normal { IsNormal modulus first.now }
    requires second_normal { IsNormal modulus second.now }
    ensures { IsTrue result ↔ (length (members modulus first.now) * length (members modulus second.now) ≤ 256) }
{
    u64::from(count(modulus, first)) * u64::from(count(modulus, second)) <= ROOM as u64
}

/// One run with the sums of two.
fn add_spans(modulus: u32, first: &Progression, second: &Progression) -> Form
    requires small { modulus ≤ 65536 }
    requires first_span { IsSpan modulus first.now.base first.now.stride first.now.count }
    requires second_span { IsSpan modulus second.now.base second.now.stride second.now.count }
    ensures { result ≡ sums.add_spans modulus first.now second.now }
{
    let base = first.base as u32 + second.base as u32;
    let stride = greatest_common_divisor(first.stride as u32, second.stride as u32);
    let end = reach(first) + reach(second);
    if end < modulus {
        let count = steps_to(end, stride);
        return make(modulus, base, stride, count);
    }
    class(modulus, base, stride)
}

/// The run that goes down from 0 where a run goes up.
fn negated(modulus: u32, run: &Progression) -> Progression
    requires small { modulus ≤ 65536 }
    requires normal { IsSpan modulus run.now.base run.now.stride run.now.count }
    ensures value { result ≡ sums.negated modulus run.now }
    ensures form { IsSpan modulus result.base result.stride result.count }
{
    let last = (run.base as u32 + reach(run)) % modulus;
    Progression {
        base: ((modulus - last) % modulus) as u16,
        stride: run.stride,
        count: run.count,
    }
}

/// The run that a set adds to another one.
fn signed_span(modulus: u32, sign: Sign, set: &Form) -> Progression
    requires small { modulus ≤ 65536 }
    requires normal { IsNormal modulus set.now }
    ensures value { result ≡ sums.signed_span modulus sign set.now }
    ensures form { IsSpan modulus result.base result.stride result.count }
{
    match sign {
        Sign::Plus => span(modulus, set),
        Sign::Minus => negated(modulus, &span(modulus, set)),
    }
}

/// The set of all numbers, where one of two is that: it is that of their sums, and that of their differences.
fn whole_of(modulus: u32, sign: Sign, first: &Form, second: &Form) -> Option<Form>
    requires first_normal { IsNormal modulus first.now }
    requires second_normal { IsNormal modulus second.now }
    ensures { IfSome result (λ set. set ≡ sums.signed modulus sign first.now second.now) }
{
    if is_whole(modulus, first) {
        return Some(*first);
    }
    if is_whole(modulus, second) {
        return Some(*second);
    }
    None
}

/// The sums or the differences of the members of two sets.
pub fn signed_sum(modulus: u32, sign: Sign, first: &Form, second: &Form) -> Form
    requires small { modulus ≤ 65536 }
    requires first_normal { IsNormal modulus first.now }
    requires second_normal { IsNormal modulus second.now }
    ensures { result ≡ sums.signed modulus sign first.now second.now }
{
    if let Some(all) = whole_of(modulus, sign, first, second) {
        return all;
    }
    if has_few_results(modulus, first, second) {
        return combine(modulus, &Sum { modulus, sign }, first, second, &single(0));
    }
    add_spans(
        modulus,
        &span(modulus, first),
        &signed_span(modulus, sign, second),
    )
}

/// The sums of each member with itself.
pub fn twice(modulus: u32, set: &Form) -> Form
    requires small { modulus ≤ 65536 }
    requires normal { IsNormal modulus set.now }
    ensures { result ≡ sums.twice modulus set.now }
{
    match set {
        Form::Values(values) => twice_list(modulus, values),
        Form::Run(run) => twice_run(modulus, run),
    }
}

fn twice_list(modulus: u32, list: &Few<LONGEST>) -> Form
    requires small { modulus ≤ 65536 }
    requires normal { IsNormal modulus (Form.Values list.now) }
    ensures { result ≡ sums.twice modulus (Form.Values list.now) }
{
    let mut values = ArrayVec::new();
    for value in list.as_slice() {
        let number = *value as u32;
        put(&mut values, ((number + number) % modulus) as u16);
    }
    set_of(modulus, values.as_slice())
}

fn twice_run(modulus: u32, run: &Progression) -> Form
    requires small { modulus ≤ 65536 }
    requires normal { IsNormalRun modulus run.now.base run.now.stride run.now.count }
    ensures { result ≡ sums.twice modulus (Form.Run run.now) }
{
    let base = 2 * run.base as u32;
    let stride = 2 * run.stride as u32;
    if 2 * reach(run) < modulus {
        return make(modulus, base, stride, run.count);
    }
    class(modulus, base, stride)
}
