//! Lines of the lists of sdcc's linker.

ghost use Rattle.std.specs.Prelude.{◌≡◌};
ghost use Rattle.std.specs.Option.{option_map};
ghost use Rattle.symbol_lists.specs.Lines as lines;

use crate::number::{behind_spaces, first_word, number};
use crate::symbol::{Place, Symbol, symbol_of};
use text_fields::{behind, cut};

/// Whether a name is one of the linker's own, of where an area begins and how long it is, or none.
fn is_own(name: &[u8]) -> bool
    ensures { result ≡ lines.is_own name.now }
{
    match name {
        [] => true,
        [b'.', ..] => true,
        [b'l', b'_', ..] => true,
        [b's', b'_', ..] => true,
        _ => false,
    }
}

/// The symbol of a name that isn't the linker's.
fn foreign(name: &[u8], value: u32, place: Place) -> Option<Symbol<'_>>
    ensures { option_map lines.entry_of result ≡ lines.foreign name.now value place }
{
    if is_own(name) {
        None
    } else {
        symbol_of(name, value, 0, place)
    }
}

/// What is said behind DEF.
fn defined(rest: &[u8]) -> Option<Option<Symbol<'_>>>
    ensures { option_map (option_map lines.entry_of) result ≡ lines.defined rest.now }
{
    let Some((name, value)) = cut(rest, b' ') else {
        return None;
    };
    let Some(digits) = behind(b"0x", value) else {
        return None;
    };
    let Some(value) = number(digits) else {
        return None;
    };
    Some(foreign(name, value, Place::Any))
}

/// What a line of a .noi says: perhaps a symbol, and nothing at all where it is of no form.
pub fn noi_line(line: &[u8]) -> Option<Option<Symbol<'_>>>
    ensures { option_map (option_map lines.entry_of) result ≡ lines.noi_line line.now }
{
    if let Some(rest) = behind(b"DEF ", line) {
        return defined(rest);
    }
    if behind(b"LOAD ", line).is_some() {
        return Some(None);
    }
    None
}

/// Where a symbol without a letter lies.
fn unlettered(value: u32) -> Place
    ensures { result ≡ lines.unlettered value }
{
    if value < 256 {
        Place::Internal
    } else {
        Place::External
    }
}

/// The value of a line of a map behind its letter, and its name.
fn worded(rest: &[u8]) -> Option<(u32, &[u8])>
    ensures { option_map (λ x. (x.0, x.1.now)) result ≡ lines.worded rest.now }
{
    let Some((value, name)) = cut(behind_spaces(rest), b' ') else {
        return None;
    };
    let Some(value) = number(value) else {
        return None;
    };
    Some((value, first_word(behind_spaces(name))))
}

/// The memory that a letter stands for.
fn memory_of(letter: u8) -> Option<Place>
    ensures { result ≡ lines.memory_of letter }
{
    if letter == b'C' {
        Some(Place::Code)
    } else if letter == b'D' || letter == b'X' {
        Some(Place::External)
    } else if letter == b'I' {
        Some(Place::Internal)
    } else {
        None
    }
}

/// The symbol behind a letter and a colon.
fn behind_letter(letter: u8, text: &[u8]) -> Option<Symbol<'_>>
    ensures { option_map lines.entry_of result ≡ lines.behind_letter letter text.now }
{
    let Some(rest) = behind(b":", text) else {
        return None;
    };
    let Some(place) = memory_of(letter) else {
        return None;
    };
    let Some((value, name)) = worded(rest) else {
        return None;
    };
    foreign(name, value, place)
}

/// The symbol of a line that begins with a space.
fn behind_space(rest: &[u8]) -> Option<Symbol<'_>>
    ensures { option_map lines.entry_of result ≡ lines.behind_space rest.now }
{
    let Some((value, name)) = worded(rest) else {
        return None;
    };
    foreign(name, value, unlettered(value))
}

/// The symbol of a line of a map, if it has one.
pub fn map_line(line: &[u8]) -> Option<Symbol<'_>>
    ensures { option_map lines.entry_of result ≡ lines.map_line line.now }
{
    let [first, rest @ ..] = line else {
        return None;
    };
    if *first == b' ' {
        behind_space(rest)
    } else {
        behind_letter(*first, rest)
    }
}
