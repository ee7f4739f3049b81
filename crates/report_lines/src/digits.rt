//! Numbers as reports write them.

ghost use Rattle.std.specs.Prelude.{◌≡◌, ◌++◌, ◌∷◌, IfSome};

use hex_digits::digit_value;

/// The number of one to four digits.
fn number_of(text: &[u8]) -> Option<u16> {
    if text.is_empty() || text.len() > 4 {
        return None;
    }
    let mut number = 0u16;
    for byte in text {
        number = number.wrapping_mul(16).wrapping_add(digit_value(*byte)?);
    }
    Some(number)
}

/// A number above 0 without leading zeros, at most 10000 in hexadecimal.
pub fn count(text: &[u8]) -> Option<u32> {
    match text {
        b"10000" => Some(0x10000),
        [b'0', ..] => None,
        _ => Some(u32::from(number_of(text)?)),
    }
}

/// A decimal number without leading zeros.
pub fn decimal(text: &[u8]) -> Option<usize> {
    match text {
        b"0" => Some(0),
        [] | [b'0', ..] => None,
        _ => {
            let mut number = 0usize;
            for byte in text {
                if *byte < b'0' || b'9' < *byte {
                    return None;
                }
                number = number
                    .checked_mul(10)?
                    .checked_add((*byte - b'0') as usize)?;
            }
            Some(number)
        }
    }
}

/// How many bytes an even number of digits gives, if it is one to six.
pub fn bytes_of(text: &[u8]) -> Option<u16> {
    for byte in text {
        digit_value(*byte)?;
    }
    match text.len() {
        2 => Some(1),
        4 => Some(2),
        6 => Some(3),
        8 => Some(4),
        10 => Some(5),
        12 => Some(6),
        _ => None,
    }
}

/// The parts in front of the first such byte and behind it.
pub fn cut(text: &[u8], at: u8) -> Option<(&[u8], &[u8])>
    ensures { IfSome result (λ parts. text.now ≡ parts.0.now ++ at ∷ parts.1.now) }
{
    let place = text.iter().position(|byte| *byte == at)?;
    Some((&text[..place], &text[place + 1..]))
}
