//! What a step reads, by its items, and the choices that are left to it.

use call_context::{Item, Set, Space};
use std::alloc::{AllocError, Global};

/// How many zeros are tried: more than a step asks.
const TRIED: usize = 16;

/// The bytes that an access reads.
#[derive(Clone, Copy)]
pub struct Read {
    pub space: Space,
    /// The first of them.
    pub at: u16,
    pub size: u16,
}

/// The one value of a set.
fn value_of(set: &Set) -> Option<u16> {
    match set {
        Set::W(words) if words.count() == 1 => Some(words.nth(0)),
        Set::B(bytes) if bytes.count() == 1 => Some(bytes.nth(0) as u16),
        _ => None,
    }
}

/// What an item reads.
pub fn read_of(item: &Item) -> Option<Read> {
    match item {
        Item::Access {
            space,
            write: false,
            size,
            at,
            ..
        } => Some(Read {
            space: *space,
            at: value_of(at)?,
            size: *size as u16,
        }),
        _ => None,
    }
}

/// The last so many numbers of a script.
pub fn left_of(script: &[u16], count: usize) -> &[u16] {
    &script[script.len().saturating_sub(count)..]
}

/// Numbers with zeros behind them.
pub fn with_zeros(alloc: Global, numbers: &[u16]) -> Result<Vec<u16>, AllocError> {
    let mut list = Vec::from_slice(alloc, numbers)?;
    list.extend_from_slice(&[0; TRIED])?;
    Ok(list)
}
