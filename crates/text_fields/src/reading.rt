//! What a text is.

ghost use Rattle.std.specs.Prelude.{◌≡◌, ◌<◌, ◌≤◌, ◌^◌, IfSome, length};
ghost use Rattle.std.specs.Option.{option_map};
ghost use Rattle.text_fields.specs.Spelling.{has_byte};
ghost use Rattle.text_fields.specs.Fields as fields;
ghost use Rattle.text_fields.specs.Numbers as numbers;
ghost use Rattle.text_fields.specs.Numbers.{hex_number, short_number};

/// The text behind a name, if it begins with the name.
pub fn behind<'a>(name: &[u8], text: &'a [u8]) -> Option<&'a [u8]>
    ensures { option_map (λ rest. rest.now) result ≡ fields.behind name.now text.now }
{
    let [letter, others @ ..] = name else {
        return Some(text);
    };
    let [first, rest @ ..] = text else {
        return None;
    };
    if *first == *letter {
        behind(others, rest)
    } else {
        None
    }
}

/// What stands in front of the first such byte and behind it, if there is one.
pub fn cut(text: &[u8], at: u8) -> Option<(&[u8], &[u8])>
    ensures parts { option_map (λ x. (x.0.now, x.1.now)) result ≡ fields.cut_at at text.now }
    ensures shorter { IfSome result (λ x. length x.1.now < length text.now) }
{
    for i in 0..text.len() {
        if text[i] == at {
            return Some((&text[..i], &text[i + 1..]));
        }
    }
    None
}

/// Whether a byte stands in a text.
pub fn has(text: &[u8], at: u8) -> bool
    ensures { result ≡ has_byte at text.now }
{
    for byte in text {
        if *byte == at {
            return true;
        }
    }
    false
}

/// The value of an upper-case hexadecimal digit.
fn digit_of(byte: u8) -> Option<u16>
    ensures value { result ≡ numbers.digit_of byte }
    ensures below { IfSome result (λ digit. digit < 16) }
{
    if b'0' <= byte && byte <= b'9' {
        Some((byte - b'0') as u16)
    } else if b'A' <= byte && byte <= b'F' {
        Some((byte - (b'A' - 10)) as u16)
    } else {
        None
    }
}

/// The number of at most four digits.
fn number_of(text: &[u8]) -> Option<u16>
    requires { length text.now ≤ 4 }
    ensures value { result ≡ numbers.digits_behind 0 text.now }
    ensures below { IfSome result (λ number. number < 16 ^ length text.now) }
{
    let mut number = 0u32;
    for byte in text {
        let digit = digit_of(*byte)?;
        number = number * 16 + digit as u32;
    }
    Some(number as u16)
}

/// The number of so many digits, at most four.
pub fn number(text: &[u8], digits: u8) -> Option<u16>
    requires { digits ≤ 4 }
    ensures value { result ≡ (hex_number digits).value text.now }
    ensures below { IfSome result (λ number. number < 16 ^ digits) }
{
    if text.len() == digits as usize {
        number_of(text)
    } else {
        None
    }
}

/// The number of so many digits at most, which doesn't begin with 0. It has at most four.
pub fn short(text: &[u8], most: u8) -> Option<u16>
    requires { most ≤ 4 }
    ensures { result ≡ (short_number most).value text.now }
{
    let [first, ..] = text else {
        return None;
    };
    if *first != b'0' && text.len() <= most as usize {
        number_of(text)
    } else {
        None
    }
}
