//! Members of a set, and which sets are within others.

ghost use Rattle.std.specs.Prelude.{◌≡◌, ◌+◌, ◌-◌, ◌*◌, ◌/◌, ◌%◌, ◌<◌, ◌≤◌, ◌↔◌, IsTrue, length, slice_index};
ghost use Rattle.value_set.specs.Form.{Has, Includes, IsNormal, IsNormalRun, members};
ghost use Rattle.value_set.specs.Summing.{whole};

use crate::circle::{above, divides, last_before_turn, reach};
use crate::form::{Form, Progression, same};
use crate::merging::list_within;

/// How many members a set has.
pub fn count(modulus: u32, set: &Form) -> u32
    requires normal { IsNormal modulus set.now }
    ensures { result ≡ length (members modulus set.now) }
{
    match set {
        Form::Values(values) => values.len() as u32,
        Form::Run(run) => run.count,
    }
}

/// Whether a set has all numbers below the modulus.
pub fn is_whole(modulus: u32, set: &Form) -> bool
    requires { IsNormal modulus set.now }
    ensures { IsTrue result → set.now ≡ whole modulus }
{
    match set {
        Form::Values(_) => false,
        Form::Run(run) => run.count == modulus,
    }
}

/// The member at a place: in ascending order in a list, from the base in a run.
pub fn nth(modulus: u32, set: &Form, place: u32) -> u16
    requires small { modulus ≤ 65536 }
    requires normal { IsNormal modulus set.now }
    requires there { place < length (members modulus set.now) }
    ensures value { result ≡ slice_index (members modulus set.now) place }
    ensures below { result < modulus }
{
    match set {
        Form::Values(values) => values.as_slice()[place as usize],
        Form::Run(run) => nth_of_run(modulus, run, place),
    }
}

fn nth_of_run(modulus: u32, run: &Progression, place: u32) -> u16
    requires small { modulus ≤ 65536 }
    requires normal { IsNormalRun modulus run.now.base run.now.stride run.now.count }
    requires there { place < run.now.count }
    ensures { result ≡ (run.now.base + place * run.now.stride) % modulus }
{
    ((run.base as u32 + place * run.stride as u32) % modulus) as u16
}

/// Whether a number is a member.
pub fn has(modulus: u32, set: &Form, value: u16) -> bool
    requires small { modulus ≤ 65536 }
    requires normal { IsNormal modulus set.now }
    requires below { value < modulus }
    ensures { IsTrue result ↔ Has modulus set.now value }
{
    match set {
        Form::Values(values) => values.as_slice().contains(&value),
        Form::Run(run) => run_has(modulus, run, value),
    }
}

fn run_has(modulus: u32, run: &Progression, value: u16) -> bool
    requires small { modulus ≤ 65536 }
    requires normal { IsNormalRun modulus run.now.base run.now.stride run.now.count }
    requires below { value < modulus }
    ensures { IsTrue result ↔ Has modulus (Form.Run run.now) value }
{
    let distance = above(modulus, run.base as u32, value as u32);
    if !divides(run.stride as u32, distance) {
        return false;
    }
    distance / (run.stride as u32) < run.count
}

/// Whether each member of a set is one of another.
pub fn within(modulus: u32, smaller: &Form, larger: &Form) -> bool
    requires small { modulus ≤ 65536 }
    requires normal { IsNormal modulus smaller.now }
    requires normal_too { IsNormal modulus larger.now }
    ensures { IsTrue result ↔ Includes modulus larger.now smaller.now }
{
    if same(smaller, larger) {
        return true;
    }
    inside(modulus, smaller, larger)
}

/// As `within`, with no look for equal sets before.
pub fn inside(modulus: u32, smaller: &Form, larger: &Form) -> bool
    requires small { modulus ≤ 65536 }
    requires normal { IsNormal modulus smaller.now }
    requires normal_too { IsNormal modulus larger.now }
    ensures { IsTrue result ↔ Includes modulus larger.now smaller.now }
{
    match (smaller, larger) {
        (Form::Values(few), Form::Values(others)) => {
            list_within(few.as_slice(), others.as_slice())
        }
        (Form::Values(_), Form::Run(_)) => each_is_in(modulus, smaller, larger),
        (Form::Run(_), Form::Values(_)) => false,
        (Form::Run(first), Form::Run(second)) => run_within(modulus, first, second),
    }
}

/// Looks at one member after another.
fn each_is_in(modulus: u32, smaller: &Form, larger: &Form) -> bool
    requires small { modulus ≤ 65536 }
    requires normal { IsNormal modulus smaller.now }
    requires normal_too { IsNormal modulus larger.now }
    ensures { IsTrue result ↔ Includes modulus larger.now smaller.now }
{
    for place in 0..count(modulus, smaller) {
        if !has(modulus, larger, nth(modulus, smaller, place)) {
            return false;
        }
    }
    true
}

fn run_within(modulus: u32, smaller: &Progression, larger: &Progression) -> bool
    requires small { modulus ≤ 65536 }
    requires normal { IsNormalRun modulus smaller.now.base smaller.now.stride smaller.now.count }
    requires normal_too { IsNormalRun modulus larger.now.base larger.now.stride larger.now.count }
    ensures { IsTrue result ↔ Includes modulus (Form.Run larger.now) (Form.Run smaller.now) }
{
    let offset = above(modulus, larger.base as u32, smaller.base as u32);
    let last = offset + reach(smaller);
    let stride = larger.stride as u32;
    if !divides(stride, offset) {
        return false;
    }
    if !divides(stride, smaller.stride as u32) {
        return false;
    }
    if last < modulus {
        return last <= reach(larger);
    }
    if !divides(stride, modulus) {
        return false;
    }
    last_before_turn(modulus, offset, smaller.stride as u32) <= reach(larger)
}
