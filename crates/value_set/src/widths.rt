//! Sets of bytes as sets of words, and lists of words below 256 as sets of bytes.

ghost use Rattle.std.specs.Prelude.{◌≡◌, ℕ, ◌<◌, ◌≤◌, ◌↔◌, IsTrue, IsSome, IfSome, length};
ghost use Rattle.std.specs.List.{Contains};
ghost use Rattle.value_set.specs.Form as forms;
ghost use Rattle.value_set.specs.Form.{Ascends, Has, IsNormal, members};
ghost use Rattle.value_set.specs.Widths.{IsByteList};

use crate::form::Form;
use crate::gathering::{put, set_of};
use crate::member::{count, is_whole, nth};
use arrayvec::ArrayVec;

/// How many bytes there are.
const BYTES: u32 = 256;

/// How many words there are.
const WORDS: u32 = 65536;

/// The bytes of a set as words: a list is the same list.
pub fn as_words(bytes: &Form) -> Form
    requires { IsNormal 256 bytes.now }
    ensures value { result ≡ forms.gather 65536 (members 256 bytes.now) }
    ensures normal { IsNormal 65536 result }
    ensures holds { (v : ℕ) → Has 256 bytes.now v → Has 65536 result v }
    ensures listed { length (members 256 bytes.now) ≤ 16 → result ≡ bytes.now }
{
    match bytes {
        Form::Values(few) => Form::Values(*few),
        Form::Run(_) => run_as_words(bytes),
    }
}

/// The members of a run of bytes as words: all bytes are the same run.
fn run_as_words(bytes: &Form) -> Form
    requires { IsNormal 256 bytes.now }
    ensures { result ≡ forms.gather 65536 (members 256 bytes.now) }
{
    if is_whole(BYTES, bytes) {
        return *bytes;
    }
    gathered(bytes)
}

/// The members of a set of bytes are gathered as words.
fn gathered(bytes: &Form) -> Form
    requires { IsNormal 256 bytes.now }
    ensures { result ≡ forms.gather 65536 (members 256 bytes.now) }
{
    let mut values = ArrayVec::new();
    for place in 0..count(BYTES, bytes) {
        put(&mut values, nth(BYTES, bytes, place));
    }
    set_of(WORDS, values.as_slice())
}

/// The words of a set as bytes, where it is a list of numbers below 256.
pub fn as_bytes(words: &Form) -> Option<Form>
    requires { IsNormal 65536 words.now }
    ensures listed { IsSome result ↔ IsByteList words.now }
    ensures value { IfSome result (λ set. set ≡ words.now) }
    ensures gathered { IfSome result (λ set. set ≡ forms.gather 256 (members 65536 words.now)) }
    ensures normal { IfSome result (λ set. IsNormal 256 set) }
{
    if is_byte_list(words) {
        return Some(*words);
    }
    None
}

fn is_byte_list(words: &Form) -> bool
    requires { IsNormal 65536 words.now }
    ensures { IsTrue result ↔ IsByteList words.now }
{
    match words {
        Form::Values(values) => are_bytes(values.as_slice()),
        Form::Run(_) => false,
    }
}

/// Whether each of some ascending numbers is below 256: whether the last one is.
fn are_bytes(values: &[u16]) -> bool
    requires some { 1 ≤ length values.now }
    requires ascending { Ascends 0 65536 values.now }
    ensures { IsTrue result ↔ ((v : ℕ) → Contains values.now v → v < 256) }
{
    (values[values.len() - 1] as u32) < BYTES
}
