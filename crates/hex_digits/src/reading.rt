//! The numbers of upper-case digits.

ghost use Rattle.std.specs.Prelude.{◌≡◌, ◌<◌, IfOk, IfSome};
ghost use Rattle.hex_digits.specs.Digits.{hex, hex_bytes, hex_digit};

use std::alloc::{AllocError, Global};

/// The value of an upper-case hexadecimal digit.
pub fn digit_value(byte: u8) -> Option<u16>
    ensures digit { IfSome result (λ value. hex_digit value ≡ byte) }
    ensures below { IfSome result (λ value. value < 16) }
{
    if b'0' <= byte && byte <= b'9' {
        return Some((byte - b'0') as u16);
    }
    if b'A' <= byte && byte <= b'F' {
        return Some((byte - b'A') as u16 + 10);
    }
    None
}

/// The number of two upper-case digits.
pub fn byte(text: &[u8]) -> Option<u16>
    ensures digits { IfSome result (λ value. hex 2 value ≡ text.now) }
    ensures below { IfSome result (λ value. value < 256) }
{
    let [first, second] = text else {
        return None;
    };
    Some(digit_value(*first)? * 16 + digit_value(*second)?)
}

/// The number of four upper-case digits.
pub fn word(text: &[u8]) -> Option<u16>
    ensures { IfSome result (λ value. hex 4 value ≡ text.now) }
{
    let [first, second, third, fourth] = text else {
        return None;
    };
    let high = digit_value(*first)? * 16 + digit_value(*second)?;
    let low = digit_value(*third)? * 16 + digit_value(*fourth)?;
    Some(high * 256 + low)
}

/// The bytes of upper-case digits, two for each.
pub fn bytes(alloc: Global, text: &[u8]) -> Result<Option<Vec<u8>>, AllocError>
    ensures { IfOk result (λ found. IfSome found (λ bytes. hex_bytes bytes.items ≡ text.now)) }
{
    if text.len() % 2 == 1 {
        return Ok(None);
    }
    let mut bytes = Vec::new(alloc);
    for i in 0..text.len() / 2 {
        let Some(value) = byte(&text[2 * i..2 * i + 2]) else {
            return Ok(None);
        };
        bytes.push(value as u8)?;
    }
    Ok(Some(bytes))
}
