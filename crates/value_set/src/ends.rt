//! The least and the greatest member of a set.

ghost use Rattle.std.specs.Prelude.{◌≡◌, ◌≤◌};
ghost use Rattle.value_set.specs.Ends as ends;
ghost use Rattle.value_set.specs.Form.{IsNormal, IsNormalRun};

use crate::circle::{last_before_turn, last_of};
use crate::form::{Form, Progression};

/// The least member of a set.
pub fn least(modulus: u32, set: &Form) -> u16
    requires small { modulus ≤ 65536 }
    requires normal { IsNormal modulus set.now }
    ensures { result ≡ ends.least modulus set.now }
{
    match set {
        Form::Values(values) => values.as_slice()[0],
        Form::Run(run) => least_of_run(modulus, run),
    }
}

/// A run that goes round has its least number behind the turn.
fn least_of_run(modulus: u32, run: &Progression) -> u16
    requires small { modulus ≤ 65536 }
    requires normal { IsNormalRun modulus run.now.base run.now.stride run.now.count }
    ensures { result ≡ ends.least modulus (Form.Run run.now) }
{
    if last_of(run) < modulus {
        return run.base;
    }
    let stride = run.stride as u32;
    (last_before_turn(modulus, run.base as u32, stride) + stride - modulus) as u16
}

/// The greatest member of a set.
pub fn greatest(modulus: u32, set: &Form) -> u16
    requires small { modulus ≤ 65536 }
    requires normal { IsNormal modulus set.now }
    ensures { result ≡ ends.greatest modulus set.now }
{
    match set {
        Form::Values(values) => values.as_slice()[values.len() - 1],
        Form::Run(run) => greatest_of_run(modulus, run),
    }
}

/// A run that goes round has its greatest number in front of the turn.
fn greatest_of_run(modulus: u32, run: &Progression) -> u16
    requires small { modulus ≤ 65536 }
    requires normal { IsNormalRun modulus run.now.base run.now.stride run.now.count }
    ensures { result ≡ ends.greatest modulus (Form.Run run.now) }
{
    let last = last_of(run);
    if last < modulus {
        return last as u16;
    }
    last_before_turn(modulus, run.base as u32, run.stride as u32) as u16
}
