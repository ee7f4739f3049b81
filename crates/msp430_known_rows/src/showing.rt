//! Accesses, as a row writes them.

use crate::sets::words_of;
use call_context::{Item, Set};
use chip_numbers::Space;

/// The access of a word, by the instruction at an address.
fn access_of(pc: u16, word: &str) -> Option<Item> {
    let (write, rest) = match word.strip_prefix('r') {
        Some(rest) => (false, rest),
        None => (true, word.strip_prefix('w').unwrap_or("")),
    };
    let (size, at) = match rest.strip_prefix('b') {
        Some(at) => (1, at),
        None => (2, rest),
    };
    match words_of(at) {
        Some(at) => Some(Item::Access {
            pc,
            space: Space::Mem,
            write,
            size,
            at: Set::W(at),
        }),
        None => None,
    }
}

/// Whether the accesses of a row are these, in order.
pub fn are_shown(items: &[Item], pc: u16, words: &str) -> bool {
    let mut at = 0usize;
    for word in words.split(' ') {
        if word.is_empty() || word.contains('=') || word == "never" {
            continue;
        }
        match (items.get(at), access_of(pc, word)) {
            (Some(item), Some(access)) if *item == access => at = at.wrapping_add(1),
            _ => return false,
        }
    }
    items.len() == at
}
