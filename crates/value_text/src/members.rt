//! What all members of a set are.

ghost use Rattle.std.specs.Prelude.{◌≡◌, ◌==◌, ◌%◌, nat_lt};
ghost use Rattle.std.specs.List.{list_all};
ghost use Rattle.value_text.specs.Members as members;

use value_set::{Form, Vs16};

/// Whether each number of a list is a byte.
fn are_bytes(values: &[u16]) -> bool
    ensures { result ≡ list_all (λ v. nat_lt v 256) values.now }
{
    values.iter().all(|v| *v < 256)
}

/// Whether each number of a list is even.
fn are_even(values: &[u16]) -> bool
    ensures { result ≡ list_all (λ v. v % 2 == 0) values.now }
{
    values.iter().all(|v| *v % 2 == 0)
}

/// Whether each member is a byte.
pub(crate) fn is_byte_set(set: &Vs16) -> bool
    ensures { result ≡ members.is_byte_set set.now }
{
    match set.form() {
        Form::Values(values) => are_bytes(values.as_slice()),
        Form::Run(run) => run.base as u32 + (run.count - 1) * (run.stride as u32) < 256,
    }
}

/// Whether each member is even.
pub fn is_even_set(set: &Vs16) -> bool
    ensures { result ≡ members.is_even_set set.now }
{
    match set.form() {
        Form::Values(values) => are_even(values.as_slice()),
        Form::Run(run) => run.base % 2 == 0 && run.stride % 2 == 0,
    }
}
