//! What a row says that steps lead to.

use crate::names::value_of;
use crate::numbers::number_of;
use call_context::{Item, Set, Space};
use mcs51_chip::ChipState;
use mcs51_emu::{NoInstr, Stepped};

/// The space of a letter.
fn space_of(letter: Option<&u8>) -> Space {
    match letter {
        Some(b'i') => Space::Ram,
        Some(b's') => Space::Sfr,
        Some(b'x') => Space::Xram,
        _ => Space::Code,
    }
}

/// Whether a set is of one value, in a byte or in a word.
fn is_one(set: &Set, value: u16) -> bool {
    match set {
        Set::B(bytes) => value < 256 && bytes.count() == 1 && bytes.has(value as u8),
        Set::W(words) => words.count() == 1 && words.has(value),
    }
}

/// Whether an item is the access of a word.
fn is_access(item: Option<&Item>, word: &str) -> bool {
    let letters = word.as_bytes();
    let Some(value) = number_of(word.get(2..).unwrap_or("")) else {
        return false;
    };
    match item {
        Some(
            Item::Access {
                space,
                write,
                size,
                at,
                ..
            },
        ) => {
            *space == space_of(letters.first())
                && *write == (letters.get(1) == Some(&b'w'))
                && *size == 1
                && is_one(at, value)
        }
        _ => false,
    }
}

/// Whether a name holds the value that stands behind it.
fn has_value(s: &ChipState, name: &str, value: &str) -> bool {
    match (value_of(s, name), number_of(value)) {
        (Some(held), Some(value)) => held == value,
        _ => false,
    }
}

/// Whether all that a row says stands behind the steps, and these are all accesses of the last one.
pub fn stands_after(s: &ChipState, items: &[Item], after: &str) -> bool {
    let mut at = if matches!(items.get(1), Some(Item::Instr { .. })) {
        2usize
    } else {
        1
    };
    for word in after.split(' ') {
        if let Some((name, value)) = word.split_once('=') {
            if !has_value(s, name, value) {
                return false;
            }
        } else if !word.is_empty() {
            if !is_access(items.get(at), word) {
                return false;
            }
            at = at.wrapping_add(1);
        }
    }
    items.len() == at.wrapping_add(1)
}

/// Whether a step isn't done, for the cause of this name.
pub fn is_refused(stepped: &Stepped, name: &str) -> bool {
    match stepped {
        Stepped::Met(_) => false,
        Stepped::NeedChoice => name == "NeedChoice",
        Stepped::Wild(NoInstr::Excluded) => name == "Excluded",
        Stepped::Wild(NoInstr::OffImage(place)) => match name.strip_prefix("OffImage:") {
            Some(digits) => number_of(digits) == Some(*place),
            None => false,
        },
    }
}

/// Whether what a row says steps lead to is that the next one isn't done.
pub fn is_refusal(end: &str) -> bool {
    matches!(end, "NeedChoice" | "Excluded") || end.starts_with("OffImage:")
}
