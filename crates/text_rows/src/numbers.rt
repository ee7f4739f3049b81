//! Words and numbers of rows.

use std::alloc::AllocError;
use std::str;

/// What stands in front of the first blank and behind it.
pub fn halves(text: &str) -> (&str, &str) {
    text.split_once(' ').unwrap_or((text, ""))
}

/// A number in decimal digits.
pub fn count_of(digits: &str) -> usize {
    digits.parse::<usize>().unwrap_or(0)
}

/// A number of at most four hexadecimal digits.
pub fn word_of(digits: &str) -> u16 {
    u16::from_str_radix(digits, 16).unwrap_or(0)
}

/// Three numbers in hexadecimal digits.
pub fn run_of(text: &str) -> (u16, u16, u32) {
    let (base, rest) = halves(text);
    let (stride, count) = halves(rest);
    (
        word_of(base),
        word_of(stride),
        u32::from_str_radix(count, 16).unwrap_or(0),
    )
}

/// Adds words, with a blank behind each.
pub fn push_words(out: &mut String, words: &[u16]) -> Result<(), AllocError> {
    if words.is_empty() {
        return out.push_str("none");
    }
    for word in words {
        write!(out, "{word:04X} ")?;
    }
    Ok(())
}

/// Adds bytes that are text.
pub fn push_bytes(out: &mut String, bytes: &[u8]) -> Result<(), AllocError> {
    out.push_str(str::from_utf8(bytes).unwrap_or("no text"))
}
