//! Numbers, names and parts of texts.

ghost use Rattle.std.specs.Prelude.{◌≤◌};

use crate::rows::halves;
use std::alloc::AllocError;
use text_fields::{behind, cut, has, number, push_name, push_number, read_name, short};

/// Registers, as a chip names them.
const NAMES: [(u16, &str); 3] = [(0, "PC"), (4, "R4"), (15, "R15")];

/// How many digits a row says: at most four.
fn count_of(digits: &str) -> u8
    ensures { result ≤ 4 }
{
    digits.parse::<u8>().unwrap_or(0).min(4)
}

/// A number of a row.
fn number_of(digits: &str) -> u16 {
    digits.parse::<u16>().unwrap_or(0)
}

/// A byte of a row.
fn byte_of(text: &str) -> u8 {
    *text.as_bytes().first().unwrap_or(&0)
}

/// Adds a number in decimal digits, if there is one.
fn push_decimal(out: &mut Vec<u8>, number: Option<u16>) -> Result<bool, AllocError> {
    let Some(number) = number else {
        return Ok(false);
    };
    let digits = number.to_string(*out.allocator())?;
    out.extend_from_slice(digits.as_str().as_bytes())?;
    Ok(true)
}

/// Adds the parts of a text with a blank between them, if there are some.
fn push_parts(out: &mut Vec<u8>, parts: Option<(&[u8], &[u8])>) -> Result<bool, AllocError> {
    let Some((front, rest)) = parts else {
        return Ok(false);
    };
    out.extend_from_slice(front)?;
    out.push(b' ')?;
    out.extend_from_slice(rest)?;
    Ok(true)
}

/// Adds the answer to what a row asks, and tells whether there is one.
pub fn push_part(out: &mut Vec<u8>, kind: &str, asked: &str) -> Result<bool, AllocError> {
    let (front, text) = halves(asked);
    let text = text.as_bytes();
    match kind {
        "number" => push_decimal(out, number(text, count_of(front))),
        "short" => push_decimal(out, short(text, count_of(front))),
        "name" => push_decimal(out, read_name(NAMES.as_slice(), asked.as_bytes())),
        "cut" => push_parts(out, cut(text, byte_of(front))),
        "behind" => match behind(front.as_bytes(), text) {
            Some(rest) => push_parts(out, Some((front.as_bytes(), rest))),
            None => Ok(false),
        },
        "has" => Ok(has(text, byte_of(front))),
        "digits" => {
            push_number(out, number_of(asked), 4)?;
            Ok(true)
        }
        "named" => {
            push_name(NAMES.as_slice(), number_of(asked), out)?;
            Ok(true)
        }
        _ => Ok(false),
    }
}
