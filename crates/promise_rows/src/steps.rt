//! Steps that keep promises or break one.

use crate::small::SmallImage;
use call_context::{InstrBytes, Item, Set};
use chip_numbers::Space;
use promises::{MOST_BYTES, PromiseError, broken_by, read_promises};
use std::alloc::{AllocError, Global};
use value_set::{Vs8, Vs16};

/// A number of at most four hexadecimal digits.
fn word_of(digits: &str) -> Option<u16> {
    u16::from_str_radix(digits, 16).ok()
}

/// The space of a name.
fn space_of(name: &str) -> Option<Space> {
    match name {
        "mem" => Some(Space::Mem),
        "ram" => Some(Space::Ram),
        "sfr" => Some(Space::Sfr),
        "xram" => Some(Space::Xram),
        _ => None,
    }
}

/// The set of one number: two digits are a byte, four a word.
fn set_of(digits: &str) -> Option<Set> {
    if digits.len() == 2 {
        let byte = u8::from_str_radix(digits, 16).ok()?;
        return Some(Set::B(Vs8::one(byte)));
    }
    Some(Set::W(Vs16::one(word_of(digits)?)))
}

/// An access of so many bytes.
fn access_of(kind: &str, place: &str) -> Option<Item> {
    let (space, at) = place.split_once(' ')?;
    Some(Item::Access {
        pc: 0,
        space: space_of(space)?,
        write: kind.starts_with('w'),
        size: kind.trim_start_matches(['r', 'w']).parse::<u8>().ok()?,
        at: set_of(at)?,
    })
}

/// An item; of an instruction two bytes.
fn item_of(text: &str) -> Option<Item> {
    let (kind, rest) = text.split_once(' ')?;
    match kind {
        "instr" => Some(Item::Instr {
            pc: word_of(rest)?,
            bytes: InstrBytes::from_slice(b"\xFF\x3F"),
        }),
        "sp" => Some(Item::Stack {
            pc: 0,
            at: set_of(rest)?,
        }),
        "edge" => Some(Item::Edge {
            from: 0,
            to: word_of(rest)?,
        }),
        _ => access_of(kind, rest),
    }
}

/// The items of a step.
fn items_of(alloc: Global, text: &str) -> Result<Option<Vec<Item>>, AllocError> {
    let mut items = Vec::new(alloc);
    for part in text.split(", ") {
        let Some(item) = item_of(part) else {
            return Ok(None);
        };
        items.push(item)?;
    }
    Ok(Some(items))
}

/// Whether a step keeps the promises of a text, or the line of the one that it breaks.
pub fn step_in(alloc: Global, image: SmallImage, asked: &str) -> Result<String, AllocError> {
    let (text, items) = asked.split_once(" | ").unwrap_or((asked, ""));
    let text = format!(in alloc; "{text}\nEND")?;
    let bytes = text.as_str().as_bytes();
    let Some(items) = items_of(alloc, items)? else {
        return String::from_str(alloc, "no items");
    };
    if bytes.len() > MOST_BYTES {
        return String::from_str(alloc, "too long");
    }
    match read_promises(alloc, bytes, &image) {
        Ok((list, _)) => match broken_by(list.as_slice(), &image, items.as_slice()) {
            Some(line) => format!(in alloc; "breaks {line}"),
            None => String::from_str(alloc, "keeps"),
        },
        Err(PromiseError::Memory) => Err(AllocError),
        Err(error) => format!(in alloc; "{error}"),
    }
}
