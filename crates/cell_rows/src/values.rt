//! Values and cells, as a row writes them.

use arrayvec::ArrayVec;
use entry_value::{Byte, Entry, Word};
use hex_digits::digit_value;
use no_memory::Memory;
use std::alloc::Global;
use value_set::{Vs8, Vs16};

/// What is known of a byte or of a word, or what is read at an address.
#[derive(Clone, Copy, PartialEq)]
pub enum Value {
    Byte(Byte),
    Word(Word),
    ByteAt(u16),
    WordAt(u16),
}

/// A value at one of some addresses.
#[derive(Clone, Copy)]
pub struct Put {
    pub at: Vs16,
    /// The first address, and the first number of the value.
    pub first: u16,
    pub number: u16,
    pub value: Value,
}

/// The number of some hexadecimal digits, of which the last four count.
pub fn number_of(digits: &str) -> Option<u16> {
    if digits.is_empty() {
        return None;
    }
    let mut number = 0u16;
    for digit in digits.as_bytes() {
        number = number.wrapping_mul(16).wrapping_add(digit_value(*digit)?);
    }
    Some(number)
}

/// Numbers with commas between them, at most sixteen.
pub fn numbers_of(text: &str) -> Option<ArrayVec<u16, 16>> {
    let mut numbers: ArrayVec<u16, 16> = ArrayVec::new();
    for digits in text.split(',') {
        numbers.try_push(number_of(digits)?).ok()?;
    }
    Some(numbers)
}

/// A set of words.
pub fn words_of(text: &str) -> Option<Vs16> {
    if text == "*" {
        return Some(Vs16::any());
    }
    let Some((base, rest)) = text.split_once('/') else {
        return Vs16::gather(numbers_of(text)?.as_slice());
    };
    let (stride, count) = rest.split_once('/')?;
    Vs16::run(
        number_of(base)?,
        number_of(stride)?,
        u32::from(number_of(count)?),
    )
}

/// A set of bytes.
fn bytes_of(text: &str) -> Option<Vs8> {
    match text {
        "*" => Some(Vs8::any()),
        _ => words_of(text)?.as_bytes(),
    }
}

/// A relation. Masks that are left out change nothing.
fn entry_of(text: &str) -> Option<Entry> {
    let (front, or) = text.split_once('|').unwrap_or((text, "0"));
    let (place, and) = front.split_once('&').unwrap_or((front, "FFFF"));
    Some(Entry {
        place: number_of(place)?,
        and: number_of(and)?,
        or: number_of(or)?,
    })
}

/// A value of a letter.
fn value_by(letter: char, text: &str) -> Option<Value> {
    if let Some(place) = text.strip_prefix('(') {
        let place = number_of(place.trim_end_matches(')'))?;
        return match letter {
            'b' => Some(Value::ByteAt(place)),
            _ => Some(Value::WordAt(place)),
        };
    }
    let (set, entry) = match text.split_once('@') {
        Some((set, entry)) => (set, Some(entry_of(entry)?)),
        None => (text, None),
    };
    match letter {
        'b' => Some(Value::Byte(Byte {
            set: bytes_of(set)?,
            entry,
        })),
        _ => Some(Value::Word(Word {
            set: words_of(set)?,
            entry,
        })),
    }
}

/// The letter of a text, and what stands behind it.
fn split_letter(text: &str) -> Option<(char, &str)> {
    match text.strip_prefix('b') {
        Some(rest) => Some(('b', rest)),
        None => Some(('w', text.strip_prefix('w')?)),
    }
}

pub fn value_of(text: &str) -> Option<Value> {
    let (letter, text) = split_letter(text)?;
    value_by(letter, text)
}

/// The first number of some that have commas between them.
fn first_of(text: &str) -> u16 {
    let (first, _) = text.split_once(',').unwrap_or((text, ""));
    number_of(first).unwrap_or(0)
}

pub fn put_of(text: &str) -> Option<Put> {
    let (letter, rest) = split_letter(text)?;
    let (places, value) = rest.split_once('=')?;
    let (set, _) = value.split_once('@').unwrap_or((value, ""));
    Some(Put {
        at: words_of(places)?,
        first: first_of(places),
        number: first_of(set),
        value: value_by(letter, value)?,
    })
}

/// The cells of a text, if each word is one.
pub fn puts_of(alloc: Global, text: &str) -> Result<Option<Vec<Put>>, Memory> {
    let mut puts = Vec::new(alloc);
    for word in text.split(' ') {
        if word.is_empty() {
            continue;
        }
        let Some(
            Put {
                at,
                first,
                number,
                value,
            },
        ) = put_of(word)
        else {
            return Ok(None);
        };
        puts.push(Put {
            at,
            first,
            number,
            value,
        })?;
    }
    Ok(Some(puts))
}
