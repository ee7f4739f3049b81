//! The members of sets as lists, where there are few.

ghost use Rattle.std.specs.Prelude.{◌≡◌, ◌+◌, ◌*◌, ◌≤◌, length};
ghost use Rattle.value_set.specs.Form.{IsNormal, IsNormalRun, members, steps};
ghost use Rattle.value_set.specs.Summing.{count_of};

use arrayvec::ArrayVec;
use value_set::{Form, Progression};

/// How many members are listed.
const MOST: usize = 256;

/// The members of a set of at most 256, in order.
pub fn listed(modulus: u32, set: &Form) -> ArrayVec<u16, MOST>
    requires small { modulus ≤ 65536 }
    requires normal { IsNormal modulus set.now }
    requires few { count_of modulus set.now ≤ 256 }
    ensures { result.items ≡ members modulus set.now }
{
    match set {
        Form::Values(values) => copied(values.as_slice()),
        Form::Run(run) => stepped(modulus, run),
    }
}

fn copied(values: &[u16]) -> ArrayVec<u16, MOST>
    requires { length values.now ≤ 256 }
    ensures { result.items ≡ values.now }
{
    let mut all = ArrayVec::new();
    for value in values {
        all.push(*value);
    }
    all
}

/// The members of a run, one after another.
fn stepped(modulus: u32, run: &Progression) -> ArrayVec<u16, MOST>
    requires small { modulus ≤ 65536 }
    requires normal { IsNormalRun modulus run.now.base run.now.stride run.now.count }
    requires few { run.now.count ≤ 256 }
    ensures { result.items ≡ steps modulus run.now.base run.now.stride run.now.count }
{
    let mut all = ArrayVec::new();
    for place in 0..run.count {
        all.push(((run.base as u32 + place * run.stride as u32) % modulus) as u16);
    }
    all
}
