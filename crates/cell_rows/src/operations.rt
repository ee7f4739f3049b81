//! Rows of values.

use crate::values::{Value, number_of, value_of};
use arrayvec::ArrayVec;
use entry_value::{Byte, Word};
use irq_frames::resume_word;

/// A value behind a mask.
fn masked(word: &str, value: &Value, mask: u16) -> Option<Value> {
    match (word, value) {
        ("and", Value::Word(word)) => Some(Value::Word(word.mask_and(mask))),
        ("or", Value::Word(word)) => Some(Value::Word(word.mask_or(mask))),
        ("and", Value::Byte(byte)) => Some(Value::Byte(byte.mask_and((mask % 0x100) as u8))),
        ("or", Value::Byte(byte)) => Some(Value::Byte(byte.mask_or((mask % 0x100) as u8))),
        _ => None,
    }
}

fn of_words(word: &str, one: &Word, other: &Word, marks: &[u16]) -> Option<Word> {
    match word {
        "joined" => Some(one.join(other)),
        "widened" => Some(one.widen(other, marks)),
        "resumed" => Some(resume_word(one, other)),
        _ => None,
    }
}

fn of_bytes(word: &str, one: &Byte, other: &Byte, marks: &[u16]) -> Option<Byte> {
    match word {
        "joined" => Some(one.join(other)),
        "widened" => {
            let mut low: ArrayVec<u8, 16> = ArrayVec::new();
            for mark in marks {
                low.try_push((*mark % 0x100) as u8).ok()?;
            }
            Some(one.widen(other, low.as_slice()))
        }
        _ => None,
    }
}

/// What is made of two values.
fn combined(word: &str, one: &Value, other: &Value, marks: &[u16]) -> Option<Value> {
    match (one, other) {
        (Value::Word(one), Value::Word(other)) => {
            Some(Value::Word(of_words(word, one, other, marks)?))
        }
        (Value::Byte(one), Value::Byte(other)) => {
            Some(Value::Byte(of_bytes(word, one, other, marks)?))
        }
        _ => None,
    }
}

fn is_inside(one: &Value, other: &Value) -> bool {
    match (one, other) {
        (Value::Word(one), Value::Word(other)) => one.within(other),
        (Value::Byte(one), Value::Byte(other)) => one.within(other),
        _ => false,
    }
}

/// Whether a row holds, if it is one.
pub fn is_made(word: &str, rest: &str, marks: &[u16]) -> Option<bool> {
    let (one, rest) = rest.split_once(' ')?;
    let (other, result) = rest.split_once(' ')?;
    let one = value_of(one)?;
    if word == "inside" {
        return Some(is_inside(&one, &value_of(other)?) == (result == "yes"));
    }
    let found = match number_of(other) {
        Some(mask) => masked(word, &one, mask)?,
        None => combined(word, &one, &value_of(other)?, marks)?,
    };
    Some(found == value_of(result)?)
}
