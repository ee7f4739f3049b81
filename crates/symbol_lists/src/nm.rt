//! Lines of what nm prints.

ghost use Rattle.std.specs.Prelude.{◌≡◌, ◌||◌};
ghost use Rattle.std.specs.Option.{option_map};
ghost use Rattle.symbol_lists.specs.Lines as lines;

use crate::number::{behind_spaces, number};
use crate::symbol::{Place, Symbol, symbol_of};
use text_fields::cut;

/// Whether a letter is of what only debuggers read.
fn is_debugging(letter: u8) -> bool
    ensures { result ≡ lines.is_debugging letter }
{
    letter == b'N' || letter == b'n' || letter == b'-'
}

/// How many bytes a symbol has. An absolute one without a size names its own address alone.
fn size_of(letter: u8, size: u32) -> u32
    ensures { result ≡ lines.size_of letter size }
{
    if size == 0 && (letter == b'A' || letter == b'a') {
        1
    } else {
        size
    }
}

/// What is said by a letter and a name.
fn lettered<'a>(value: u32, size: u32, letter: &[u8], name: &'a [u8]) -> Option<Option<Symbol<'a>>>
    ensures { option_map (option_map lines.entry_of) result ≡ lines.lettered value size letter.now name.now }
{
    let [letter] = letter else {
        return None;
    };
    if name.is_empty() {
        return None;
    }
    if is_debugging(*letter) {
        return Some(None);
    }
    Some(symbol_of(name, value, size_of(*letter, size), Place::Any))
}

/// What is said by a size, a letter and a name.
fn sized<'a>(value: u32, size: &[u8], rest: &'a [u8]) -> Option<Option<Symbol<'a>>>
    ensures { option_map (option_map lines.entry_of) result ≡ lines.sized value size.now rest.now }
{
    let Some(size) = number(size) else {
        return None;
    };
    let Some((letter, name)) = cut(rest, b' ') else {
        return None;
    };
    lettered(value, size, letter, name)
}

/// What is said by all that stands behind the value.
fn valued(value: u32, rest: &[u8]) -> Option<Option<Symbol<'_>>>
    ensures { option_map (option_map lines.entry_of) result ≡ lines.valued value rest.now }
{
    let Some((word, behind)) = cut(rest, b' ') else {
        return None;
    };
    if word.len() == 1 {
        lettered(value, 0, word, behind)
    } else {
        sized(value, word, behind)
    }
}

/// Whether a text is the letter and the name of a symbol without a value.
fn is_undefined(text: &[u8]) -> bool
    ensures { result ≡ lines.is_undefined text.now }
{
    match text {
        [_, b' ', _, ..] => true,
        _ => false,
    }
}

/// What a line says: perhaps a symbol, and nothing at all where it is of no form.
pub fn nm_line(line: &[u8]) -> Option<Option<Symbol<'_>>>
    ensures { option_map (option_map lines.entry_of) result ≡ lines.nm_line line.now }
{
    let Some((value, rest)) = cut(line, b' ') else {
        return None;
    };
    if value.is_empty() {
        return if is_undefined(behind_spaces(rest)) {
            Some(None)
        } else {
            None
        };
    }
    let Some(value) = number(value) else {
        return None;
    };
    valued(value, rest)
}
