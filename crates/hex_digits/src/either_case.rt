//! A word of four hexadecimal digits in either case.

ghost use Rattle.std.specs.Prelude.{◌≡◌, ◌<◌, IfSome};
ghost use Rattle.hex.specs.Hex.{hex_digit_value};
ghost use Rattle.hex_digits.specs.EitherCase as words;

/// The value of a digit.
fn digit_of(byte: u8) -> Option<u16>
    ensures value { result ≡ hex_digit_value byte }
    ensures below { IfSome result (λ digit. digit < 16) }
{
    match byte {
        b'0'..=b'9' => Some((byte - b'0') as u16),
        b'A'..=b'F' => Some((byte - b'A') as u16 + 10),
        b'a'..=b'f' => Some((byte - b'a') as u16 + 10),
        _ => None,
    }
}

/// The word of four digits.
pub fn word_in_either_case(text: &[u8]) -> Option<u16>
    ensures { result ≡ words.word_in_either_case text.now }
{
    match text {
        [a, b, c, d] => {
            let (a, b) = (digit_of(*a)?, digit_of(*b)?);
            let (c, d) = (digit_of(*c)?, digit_of(*d)?);
            Some(a * 4096 + b * 256 + c * 16 + d)
        }
        _ => None,
    }
}
