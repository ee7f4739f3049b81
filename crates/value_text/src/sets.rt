//! Sets of numbers.

ghost use Rattle.std.specs.Prelude.{◌≡◌, ◌<◌, ◌≤◌, ◌^◌, if◌then◌else◌, None, Some, IfSome, length};
ghost use Rattle.value_set.specs.Form.{Ascends, IsNormal};
ghost use Rattle.text_fields.specs.Numbers.{IsWidth, hex_number};
ghost use Rattle.text_fields.specs.Fields.{beside};
ghost use Rattle.value_text.specs.Runs as runs;
ghost use Rattle.value_text.specs.Sets as fields;

use arrayvec::ArrayVec;
use text_fields::{cut, has, number, short};
use value_set::{Few, Form, Progression, Vs8, Vs16};

/// How many numbers a list has at most.
const LONGEST: usize = 16;

/// How many numbers there are of so many digits.
pub(crate) fn modulus(digits: u8) -> u32
    requires { IsWidth digits }
    ensures { result ≡ 16 ^ digits }
{
    if digits == 2 { 256 } else { 65536 }
}

/// The set of all numbers of so many digits.
fn whole(digits: u8) -> Form
    requires { IsWidth digits }
    ensures { result ≡ fields.whole (16 ^ digits) }
{
    Form::Run(Progression {
        base: 0,
        stride: 1,
        count: modulus(digits),
    })
}

/// Whether a run begins below its modulus, goes round less than once, and isn't of all numbers.
fn is_run(modulus: u32, base: u16, stride: u16, count: u16) -> bool
    requires { modulus ≤ 65536 }
    ensures { result ≡ runs.is_run modulus base stride count }
{
    let stride = stride as u32;
    let count = count as u32;
    17 <= count
        && count < modulus
        && (count - 1) * stride < modulus
        && ((base as u32) < stride || (count - 1) * stride + stride != modulus)
}

/// The stride and the count of a run.
fn read_steps(text: &[u8], digits: u8) -> Option<(u16, u16)>
    requires { IsWidth digits }
    ensures { result ≡ (fields.steps_field digits).value text.now }
{
    let (stride, count) = cut(text, b'/')?;
    Some((short(stride, digits)?, short(count, digits)?))
}

/// The base, the stride and the count of a run.
fn read_numbers(text: &[u8], digits: u8) -> Option<(u16, (u16, u16))>
    requires { IsWidth digits }
    ensures { result ≡ (beside 47 (hex_number digits) (fields.steps_field digits)).value text.now }
{
    let (base, steps) = cut(text, b'/')?;
    Some((number(base, digits)?, read_steps(steps, digits)?))
}

/// These of a run that is a set of its own.
fn read_run(text: &[u8], digits: u8) -> Option<(u16, (u16, u16))>
    requires { IsWidth digits }
    ensures { result ≡ (fields.run_field digits).value text.now }
{
    let run = read_numbers(text, digits)?;
    if is_run(modulus(digits), run.0, run.1.0, run.1.1) {
        Some(run)
    } else {
        None
    }
}

/// Whether numbers ascend, from a number on.
fn ascends(low: u32, values: &[u16]) -> bool
    ensures { result ≡ runs.ascends low values.now }
{
    let [first, rest @ ..] = values else {
        return true;
    };
    low <= *first as u32 && ascends(*first as u32 + 1, rest)
}

/// The numbers, if they ascend.
fn ascending(values: Few<16>) -> Option<Few<16>>
    ensures { result ≡ (if runs.ascends 0 values then Some values else None) }
{
    if ascends(0, values.as_slice()) {
        Some(values)
    } else {
        None
    }
}

/// Ascending numbers, at most 16.
fn read_values(text: &[u8], digits: u8) -> Option<Few<16>>
    requires { IsWidth digits }
    ensures { result ≡ (fields.list_field digits).value text.now }
{
    let mut values = Few::new();
    let mut rest = text;
    while let Some((first, behind)) = cut(rest, b',') {
        let Some(value) = number(first, digits) else {
            return None;
        };
        if values.len() == LONGEST {
            return None;
        }
        values.push(value);
        rest = behind;
    }
    let Some(value) = number(rest, digits) else {
        return None;
    };
    if values.len() == LONGEST {
        return None;
    }
    values.push(value);
    ascending(values)
}

/// The set of a text that isn't a star.
fn read_part(text: &[u8], digits: u8) -> Option<Form>
    requires { IsWidth digits }
    ensures { result ≡ fields.part_of digits text.now }
{
    if has(text, b'/') {
        let (base, (stride, count)) = read_run(text, digits)?;
        Some(Form::Run(Progression {
            base,
            stride,
            count: count as u32,
        }))
    } else {
        Some(Form::Values(read_values(text, digits)?))
    }
}

/// The set of a text.
fn read_form(text: &[u8], digits: u8) -> Option<Form>
    requires { IsWidth digits }
    ensures value { result ≡ (fields.set_field digits).value text.now }
    ensures normal { IfSome result (λ form. IsNormal (16 ^ digits) form) }
{
    if text == b"*".as_slice() {
        return Some(whole(digits));
    }
    read_part(text, digits)
}

/// The set of words of this form.
fn words_of(form: &Form) -> Vs16
    requires { IsNormal 65536 form.now }
    ensures { result ≡ form.now }
{
    match form {
        Form::Values(values) => match Vs16::gather(values.as_slice()) {
            Some(set) => set,
            None => unreachable!(),
        },
        Form::Run(run) => match Vs16::run(run.base, run.stride, run.count) {
            Some(set) => set,
            None => unreachable!(),
        },
    }
}

/// The numbers of a list, as bytes.
fn bytes_in(values: &Few<16>) -> ArrayVec<u8, 16>
    requires few { length values.now ≤ 16 }
    requires ascends { Ascends 0 256 values.now }
    ensures { result.items ≡ values.now }
{
    let mut bytes = ArrayVec::new();
    for value in values.as_slice() {
        bytes.push(*value as u8);
    }
    bytes
}

/// The set of bytes of this form.
fn bytes_of(form: &Form) -> Vs8
    requires { IsNormal 256 form.now }
    ensures { result ≡ form.now }
{
    match form {
        Form::Values(values) => match Vs8::gather(bytes_in(values).as_slice()) {
            Some(set) => set,
            None => unreachable!(),
        },
        Form::Run(run) => match Vs8::run(run.base as u8, run.stride as u8, run.count) {
            Some(set) => set,
            None => unreachable!(),
        },
    }
}

/// The set of words that a text spells.
pub fn read_word_set(text: &[u8]) -> Option<Vs16>
    ensures { result ≡ (fields.set_field 4).value text.now }
{
    let Some(form) = read_form(text, 4) else {
        return None;
    };
    Some(words_of(&form))
}

/// The set of bytes that a text spells.
pub fn read_byte_set(text: &[u8]) -> Option<Vs8>
    ensures { result ≡ (fields.set_field 2).value text.now }
{
    let Some(form) = read_form(text, 2) else {
        return None;
    };
    Some(bytes_of(&form))
}
