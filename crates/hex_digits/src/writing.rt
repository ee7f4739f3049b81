//! The digits of numbers.

ghost use Rattle.std.specs.Prelude.{◌≡◌, ◌≤◌, ◌<◌, ◌+◌, ◌++◌, ◌∷◌, [], length, OnOk};
ghost use Rattle.hex_digits.specs.Digits.{hex, hex_digit, short_hex, byte_text, word_text};

use arrayvec::ArrayString;
use std::alloc::AllocError;

/// The character of a digit below 16.
fn digit(value: u8) -> u8
    requires { value < 16 }
    ensures value { result ≡ hex_digit value }
    ensures ascii { result < 128 }
{
    if value < 10 {
        b'0' + value
    } else {
        b'A' - 10 + value
    }
}

/// The two digits of a byte.
pub fn hex_byte(value: u8) -> [u8; 2]
    ensures { result ≡ hex 2 value }
{
    [digit(value / 16), digit(value % 16)]
}

/// The four digits of a word.
pub fn hex_word(value: u16) -> [u8; 4]
    ensures { result ≡ hex 4 value }
{
    [
        digit((value / 16 / 16 / 16 % 16) as u8),
        digit((value / 16 / 16 % 16) as u8),
        digit((value / 16 % 16) as u8),
        digit((value % 16) as u8),
    ]
}

/// Adds a number without leading zeros.
pub fn push_short_hex(line: &mut Vec<u8>, value: u32) -> Result<(), AllocError>
    ensures { OnOk result (line.new.items ≡ line.old.items ++ short_hex value) }
{
    if value >= 16 {
        push_short_hex(line, value / 16)?;
    }
    line.push(digit((value % 16) as u8))?;
    Ok(())
}

/// Adds a digit below 16.
fn push_digit(text: &mut ArrayString<40>, value: u8)
    requires digit { value < 16 }
    requires room { length text.old.bytes < 40 }
    ensures { text.new.bytes ≡ text.old.bytes ++ hex_digit value ∷ [] }
{
    text.push(char::from(digit(value)));
}

/// Adds the two digits of a byte, and an h.
pub fn push_byte(text: &mut ArrayString<40>, byte: u8)
    requires { length text.old.bytes + 3 ≤ 40 }
    ensures bytes { text.new.bytes ≡ text.old.bytes ++ byte_text byte }
    ensures len { length text.new.bytes ≡ length text.old.bytes + 3 }
{
    push_digit(text, byte / 16 % 16);
    push_digit(text, byte % 16);
    text.push_str("h");
}

/// Adds the four digits of a word, and an h.
pub fn push_word(text: &mut ArrayString<40>, word: u16)
    requires { length text.old.bytes + 5 ≤ 40 }
    ensures bytes { text.new.bytes ≡ text.old.bytes ++ word_text word }
    ensures len { length text.new.bytes ≡ length text.old.bytes + 5 }
{
    push_digit(text, (word / 16 / 16 / 16 % 16) as u8);
    push_digit(text, (word / 16 / 16 % 16) as u8);
    push_digit(text, (word / 16 % 16) as u8);
    push_digit(text, (word % 16) as u8);
    text.push_str("h");
}
