//! Numbers and ranges of addresses in words.

ghost use Rattle.std.specs.Prelude.{◌≤◌, ℕ, MatchOption};
ghost use Rattle.vsa_words.specs.declared.numbers.Span.{Span as ASpan};
ghost use Rattle.vsa_words.specs.Numbers.{IsNumber, IsNumberBehind, IsNumberIn, IsRange};

use hex_digits::word_in_either_case;

/// The first and the last address of a range.
#[derive(Clone, Copy, Debug, PartialEq, Eq)]
pub struct Span {
    pub lo: u16,
    pub hi: u16,
}

/// The greatest number that words say.
const MOST_NUMBER: u32 = 1_000_000;

/// The range `LO-HI`, by four hexadecimal digits each.
pub fn range_of(text: &[u8]) -> Option<Span>
    ensures { MatchOption result ((span : ASpan) → ¬ IsRange text.now span) (IsRange text.now) }
{
    if text.len() != 9 || text[4] != b'-' {
        return None;
    }
    let lo = word_in_either_case(&text[..4])?;
    let hi = word_in_either_case(&text[5..])?;
    Some(Span { lo, hi })
}

/// The number of decimal digits behind those of another one, where it is at most a million.
fn number_behind(number: u32, digits: &[u8]) -> Option<u32>
    requires { number ≤ 1000000 }
    ensures { MatchOption result ((steps : ℕ) → ¬ IsNumberBehind number digits.now steps) (IsNumberBehind number digits.now) }
{
    let Some((digit, rest)) = digits.split_first() else {
        return Some(number);
    };
    if !digit.is_ascii_digit() {
        return None;
    }
    let longer = 10 * number + (*digit - b'0') as u32;
    if longer > MOST_NUMBER {
        return None;
    }
    number_behind(longer, rest)
}

/// A number of 1 to 7 decimal digits, at most a million.
fn decimal_of(text: &[u8]) -> Option<u32>
    ensures { MatchOption result ((number : ℕ) → ¬ IsNumber text.now number) (IsNumber text.now) }
{
    if text.is_empty() || text.len() > 7 {
        return None;
    }
    number_behind(0, text)
}

/// A number of 1 to 7 decimal digits between two others.
pub fn number_in(text: &[u8], least: u32, most: u32) -> Option<u32>
    ensures { MatchOption result ((number : ℕ) → ¬ IsNumberIn least most text.now number) (IsNumberIn least most text.now) }
{
    let number = decimal_of(text)?;
    if number < least || number > most {
        return None;
    }
    Some(number)
}
