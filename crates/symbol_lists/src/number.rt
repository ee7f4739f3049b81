//! Numbers and words of a line.

ghost use Rattle.std.specs.Prelude.{◌≡◌, ◌≤◌, ◌<◌, IfSome};
ghost use Rattle.hex.specs.Hex.{hex_digit_value};
ghost use Rattle.symbol_lists.specs.Lines as lines;

use text_fields::cut;

/// The value of a digit.
fn digit_of(byte: u8) -> Option<u32>
    ensures value { result ≡ hex_digit_value byte }
    ensures below { IfSome result (λ digit. digit < 16) }
{
    match byte {
        b'0'..=b'9' => Some((byte - b'0') as u32),
        b'A'..=b'F' => Some((byte - b'A') as u32 + 10),
        b'a'..=b'f' => Some((byte - b'a') as u32 + 10),
        _ => None,
    }
}

/// The number of digits, of which those above 65,536 count as that.
pub fn number(text: &[u8]) -> Option<u32>
    ensures { result ≡ lines.number text.now }
{
    if text.is_empty() {
        return None;
    }
    let mut number = 0;
    for (i, byte) in text.iter().enumerate() {
        let Some(digit) = digit_of(*byte) else {
            return None;
        };
        number = (number * 16 + digit).min(65_536);
    }
    Some(number)
}

/// What stands behind the spaces at the front.
pub fn behind_spaces(text: &[u8]) -> &[u8]
    ensures { result.now ≡ lines.behind_spaces text.now }
{
    for (i, byte) in text.iter().enumerate() {
        if *byte != b' ' {
            return &text[i..];
        }
    }
    b""
}

/// What stands in front of the first space, or all where there is none.
pub fn first_word(text: &[u8]) -> &[u8]
    ensures { result.now ≡ lines.first_word text.now }
{
    match cut(text, b' ') {
        Some((front, _)) => front,
        None => text,
    }
}
