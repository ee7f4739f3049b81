//! Which items break which assertions.

use assert_check::{Assertion, breaks};
use call_context::{InstrBytes, Item, Set};
use chip_numbers::Space;
use value_set::{Vs8, Vs16};

/// A number of at most four hexadecimal digits.
fn word_of(digits: &str) -> Option<u16> {
    u16::from_str_radix(digits, 16).ok()
}

/// Both ends of a range.
fn range_of(text: &str) -> Option<(u16, u16)> {
    let (lo, hi) = text.split_once('-')?;
    Some((word_of(lo)?, word_of(hi)?))
}

/// The space of a name.
fn space_of(name: &str) -> Option<Space> {
    match name {
        "mem" => Some(Space::Mem),
        "code" => Some(Space::Code),
        "sfr" => Some(Space::Sfr),
        "xram" => Some(Space::Xram),
        _ => None,
    }
}

/// A set of words, or behind `b` one of bytes.
fn set_of(text: &str) -> Option<Set> {
    if let Some((base, rest)) = text.split_once('/') {
        let (stride, count) = rest.split_once('/')?;
        let set = Vs16::run(word_of(base)?, word_of(stride)?, u32::from(word_of(count)?))?;
        return Some(Set::W(set));
    }
    match text.strip_prefix('b') {
        Some("*") => Some(Set::B(Vs8::any())),
        Some(digits) => Some(Set::B(Vs8::one(u8::from_str_radix(digits, 16).ok()?))),
        None => Some(Set::W(Vs16::one(word_of(text)?))),
    }
}

/// An assertion, of which a range may end before it begins.
fn assertion_of(text: &str) -> Option<Assertion> {
    let (kind, rest) = text.split_once(' ')?;
    if kind == "noexec" {
        let (lo, hi) = range_of(rest)?;
        return Some(Assertion::NoExec { lo, hi });
    }
    let (place, range) = rest.split_once(' ')?;
    let (lo, hi) = range_of(range)?;
    if kind == "stack" {
        let (from, to) = range_of(place)?;
        return Some(Assertion::Stack { from, to, lo, hi });
    }
    let space = space_of(place)?;
    match kind {
        "noread" => Some(Assertion::NoRead { space, lo, hi }),
        "nowrite" => Some(Assertion::NoWrite { space, lo, hi }),
        _ => None,
    }
}

/// An access of so many bytes.
fn access_of(kind: &str, space: &str, set: &str) -> Option<Item> {
    let write = kind.starts_with('w');
    let size = kind.trim_start_matches(['r', 'w']).parse::<u8>().ok()?;
    Some(Item::Access {
        pc: 0xF000,
        space: space_of(space)?,
        write,
        size,
        at: set_of(set)?,
    })
}

/// An item at F000h, or an instruction of two bytes.
fn item_of(text: &str) -> Option<Item> {
    let (kind, rest) = text.split_once(' ')?;
    match kind {
        "instr" => Some(Item::Instr {
            pc: word_of(rest)?,
            bytes: InstrBytes::from_slice(b"\xFF\x3F"),
        }),
        "sp" => Some(Item::Stack {
            pc: 0xF000,
            at: set_of(rest)?,
        }),
        _ => {
            let (space, set) = rest.split_once(' ')?;
            access_of(kind, space, set)
        }
    }
}

/// Whether an item breaks an assertion; none where the row has another form.
pub fn is_broken(row: &str) -> Option<bool> {
    let (assertion, item) = row.split_once(" | ")?;
    Some(breaks(assertion_of(assertion)?, &item_of(item)?))
}
