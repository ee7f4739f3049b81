//! Sets, and bytes with relations, as a row writes them.

use arrayvec::ArrayVec;
use entry_value::{Byte, Entry};
use hex_digits::digit_value;
use value_set::{Vs8, Vs16};

/// The number of some hexadecimal digits, of which the last four count.
pub fn number_of(digits: &str) -> Option<u16> {
    if digits.is_empty() {
        return None;
    }
    let mut number = 0u16;
    for digit in digits.as_bytes() {
        number = number.wrapping_mul(16).wrapping_add(digit_value(*digit)?);
    }
    Some(number)
}

/// The byte of some hexadecimal digits.
pub fn byte_number(digits: &str) -> Option<u8> {
    u8::try_from(number_of(digits)?).ok()
}

/// The set of numbers with commas between them, at most sixteen.
fn list_of(text: &str) -> Option<Vs16> {
    let mut numbers: ArrayVec<u16, 16> = ArrayVec::new();
    for digits in text.split(',') {
        numbers.try_push(number_of(digits)?).ok()?;
    }
    Vs16::gather(numbers.as_slice())
}

/// Base, stride and count of a run.
fn run_of(text: &str) -> Option<(u16, u16, u32)> {
    let (base, rest) = text.split_once('/')?;
    let (stride, count) = rest.split_once('/')?;
    Some((
        number_of(base)?,
        number_of(stride)?,
        u32::from(number_of(count)?),
    ))
}

/// A set of words.
pub fn words_of(text: &str) -> Option<Vs16> {
    if text == "*" {
        return Some(Vs16::any());
    }
    match run_of(text) {
        Some((base, stride, count)) => Vs16::run(base, stride, count),
        None => list_of(text),
    }
}

/// A set of bytes.
pub fn bytes_of(text: &str) -> Option<Vs8> {
    if text == "*" {
        return Some(Vs8::any());
    }
    match run_of(text) {
        Some((base, stride, count)) => Vs8::run(
            u8::try_from(base).ok()?,
            u8::try_from(stride).ok()?,
            count,
        ),
        None => list_of(text)?.as_bytes(),
    }
}

/// A relation such as `30&0F|30`. Masks that are left out change nothing.
fn entry_of(text: &str) -> Option<Entry> {
    let (front, or) = text.split_once('|').unwrap_or((text, "00"));
    let (place, and) = front.split_once('&').unwrap_or((front, "FF"));
    Some(Entry {
        place: number_of(place)?,
        and: number_of(and)?,
        or: number_of(or)?,
    })
}

/// A byte: a set, perhaps with a relation.
pub fn byte_of(text: &str) -> Option<Byte> {
    match text.split_once('@') {
        Some((set, entry)) => Some(Byte {
            set: bytes_of(set)?,
            entry: Some(entry_of(entry)?),
        }),
        None => Some(Byte {
            set: bytes_of(text)?,
            entry: None,
        }),
    }
}
