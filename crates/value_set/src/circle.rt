//! Distances on the circle modulo a modulus, and runs there.

ghost use Rattle.std.specs.Prelude.{◌≡◌, ◌+◌, ◌-◌, ◌*◌, ◌/◌, ◌%◌, ◌<◌, ◌≤◌, ◌↔◌, IsTrue};
ghost use Prim.Native.Nat.{◌∣◌};
ghost use Rattle.value_set.specs.Form as forms;
ghost use Rattle.value_set.specs.Joining as joining;
ghost use Rattle.value_set.specs.Widening as widening;

use crate::form::Progression;

/// How far a number stands above another, upward round the circle.
pub fn above(modulus: u32, from: u32, value: u32) -> u32
    requires positive { 0 < modulus }
    requires small { modulus ≤ 65536 }
    requires from_below { from < modulus }
    requires below { value < modulus }
    ensures distance { result ≡ forms.above modulus from value }
    ensures around { result < modulus }
{
    (value + modulus - from) % modulus
}

/// Whether a number is a multiple of another.
pub fn divides(divisor: u32, number: u32) -> bool
    requires { 0 < divisor }
    ensures { IsTrue result ↔ (divisor ∣ number) }
{
    number % divisor == 0
}

/// The distance from the first number of a run to its last.
pub fn reach(run: &Progression) -> u32
    requires some { 1 ≤ run.now.count }
    requires small { (run.now.count - 1) * run.now.stride < 65536 }
    ensures { result ≡ joining.reach run.now }
{
    (run.count - 1) * run.stride as u32
}

/// The last number of a run, counted on where it goes round.
pub fn last_of(run: &Progression) -> u32
    requires some { 1 ≤ run.now.count }
    requires small { (run.now.count - 1) * run.now.stride < 65536 }
    ensures { result ≡ widening.last_of run.now }
{
    run.base as u32 + reach(run)
}

/// The last number in front of the turn, from an offset in steps of a stride.
pub fn last_before_turn(modulus: u32, offset: u32, stride: u32) -> u32
    requires small { modulus ≤ 65536 }
    requires below { offset < modulus }
    requires strides { 0 < stride }
    ensures { result ≡ offset + (modulus - 1 - offset) / stride * stride }
{
    offset + (modulus - 1 - offset) / stride * stride
}
