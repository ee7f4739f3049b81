//! Numbers, and words with relations, as a row writes them.

ghost use Rattle.std.specs.Prelude.{◌≤◌, ◌<◌, IfSome};

use entry_value::{Entry, Word};
use hex_digits::{byte, word};
use value_set::Vs16;
use value_text::read_word_set;

/// The number of two or of four digits.
pub fn number_of(digits: &str) -> Option<u16> {
    match digits.len() {
        2 => byte(digits.as_bytes()),
        _ => word(digits.as_bytes()),
    }
}

/// Both ends of a range such as `0200-09FF`.
pub fn range_of(text: &str) -> Option<(u16, u16)> {
    let (low, high) = text.split_once('-').unwrap_or((text, text));
    match (number_of(low), number_of(high)) {
        (Some(low), Some(high)) => Some((low, high)),
        _ => None,
    }
}

/// The number of R4 to R15, by its name.
pub fn register_of(name: &str) -> Option<u16>
    ensures { IfSome result (λ number. (4 ≤ number) × (number < 16)) }
{
    match name.strip_prefix('R').unwrap_or("").parse::<u16>() {
        Ok(number) if 4 <= number && number < 16 => Some(number),
        _ => None,
    }
}

/// The number of a place that a value came from.
fn place_of(name: &str) -> Option<u16> {
    match name {
        "PC" => Some(0),
        "SR" => Some(2),
        _ => register_of(name),
    }
}

/// A relation such as `R4&00FF|0030`. Masks that are left out change nothing.
pub fn entry_of(text: &str) -> Option<Entry> {
    let (front, or) = text.split_once('|').unwrap_or((text, "0000"));
    let (place, and) = front.split_once('&').unwrap_or((front, "FFFF"));
    if let Some(place) = place_of(place)
        && let Some(and) = number_of(and)
        && let Some(or) = number_of(or)
    {
        return Some(Entry { place, and, or });
    }
    None
}

/// A set of words.
pub fn words_of(text: &str) -> Option<Vs16> {
    read_word_set(text.as_bytes())
}

/// A word: a set, perhaps with a relation.
pub fn word_of(text: &str) -> Option<Word> {
    let (set, relation) = text.split_once('@').unwrap_or((text, ""));
    let entry = entry_of(relation);
    match words_of(set) {
        Some(set) if entry.is_some() || !text.contains('@') => Some(Word { set, entry }),
        _ => None,
    }
}
