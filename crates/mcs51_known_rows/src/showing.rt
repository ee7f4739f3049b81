//! Accesses, as a row writes them.

use crate::sets::{bytes_of, words_of};
use call_context::{Item, Set};
use chip_numbers::Space;

/// The space of a letter.
fn space_of(letter: Option<&u8>) -> Space {
    match letter {
        Some(b'i') => Space::Ram,
        Some(b's') => Space::Sfr,
        Some(b'x') => Space::Xram,
        _ => Space::Code,
    }
}

/// Whether a set is the one of a text.
fn is_set(set: &Set, text: &str) -> bool {
    match set {
        Set::B(bytes) => match bytes_of(text) {
            Some(wanted) => wanted.within(bytes) && bytes.within(&wanted),
            None => false,
        },
        Set::W(words) => match words_of(text) {
            Some(wanted) => wanted.within(words) && words.within(&wanted),
            None => false,
        },
    }
}

/// Whether an item is the access of a word.
pub fn is_access(item: &Item, word: &str) -> bool {
    let letters = word.as_bytes();
    match item {
        Item::Access {
            space,
            write,
            size,
            at,
            ..
        } => {
            *space == space_of(letters.first())
                && *write == (letters.get(1) == Some(&b'w'))
                && *size == 1
                && is_set(at, word.get(2..).unwrap_or(""))
        }
        _ => false,
    }
}
