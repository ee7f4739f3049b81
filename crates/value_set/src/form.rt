//! The two forms of a set.

ghost use Rattle.std.specs.Prelude.{◌≡◌, ◌↔◌, IsTrue};

use crate::few::{Few, LONGEST};

/// The numbers `base + i * stride`, taken modulo the modulus of the width, for each `i` below `count`.
#[derive(Clone, Copy, Debug, PartialEq, Eq, Hash)]
pub struct Progression {
    /// The first number.
    pub base: u16,
    /// From each number to the next one.
    pub stride: u16,
    /// How many numbers there are.
    pub count: u32,
}

/// What a set of numbers is written as.
#[derive(Clone, Copy, Debug, PartialEq, Eq, Hash)]
pub enum Form {
    /// Ascending numbers, 1 to 16 of them.
    Values(Few<LONGEST>),
    /// A run of at least 17 numbers.
    Run(Progression),
}

/// The numbers from a base upward in steps of a stride, up to a distance that is their end.
#[derive(Clone, Copy, Debug, PartialEq, Eq)]
pub struct Stretch {
    pub base: u32,
    pub stride: u32,
    pub end: u32,
}

/// Whether two lists are the same.
fn same_numbers(one: &[u16], other: &[u16]) -> bool
    ensures { IsTrue result ↔ (one.now ≡ other.now) }
{
    one == other
}

/// Whether two runs are written the same.
fn same_run(one: &Progression, other: &Progression) -> bool
    ensures { IsTrue result ↔ (one.now ≡ other.now) }
{
    if one.base != other.base {
        return false;
    }
    if one.stride != other.stride {
        return false;
    }
    one.count == other.count
}

/// Whether two sets are written the same.
pub fn same(one: &Form, other: &Form) -> bool
    ensures { IsTrue result ↔ (one.now ≡ other.now) }
{
    match (one, other) {
        (Form::Values(few), Form::Values(others)) => {
            same_numbers(few.as_slice(), others.as_slice())
        }
        (Form::Values(_), Form::Run(_)) => false,
        (Form::Run(_), Form::Values(_)) => false,
        (Form::Run(first), Form::Run(second)) => same_run(first, second),
    }
}
