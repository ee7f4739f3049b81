//! What a step did, in letters and digits.

use call_context::{Item, Set};
use std::alloc::{AllocError, Global};

/// The one value of a set of words.
fn value_of(set: &Set) -> Option<u16> {
    match set {
        Set::W(words) if words.count() == 1 => Some(words.nth(0)),
        _ => None,
    }
}

/// Adds the address of an access or of the stack.
fn put_value(text: &mut String, at: &Set) -> Result<(), AllocError> {
    match value_of(at) {
        Some(value) => write!(text, "/{value:04X}"),
        None => text.push_str("/many"),
    }
}

/// Adds an item.
fn put_item(text: &mut String, item: &Item) -> Result<(), AllocError> {
    match item {
        Item::Stack { pc, at } => {
            write!(text, "S/{pc:04X}")?;
            put_value(text, at)
        }
        Item::Instr { pc, bytes } => {
            write!(text, "I/{pc:04X}/")?;
            for byte in bytes.as_slice() {
                write!(text, "{byte:02X}")?;
            }
            Ok(())
        }
        Item::Access {
            pc,
            write,
            size,
            at,
            ..
        } => {
            let letter = if *write { 'w' } else { 'r' };
            write!(text, "M/{pc:04X}/{letter}/{size}")?;
            put_value(text, at)
        }
        Item::Edge { from, to } => write!(text, "E/{from:04X}/{to:04X}"),
    }
}

/// All that a step did, in its order.
pub fn done_by(alloc: Global, items: &[Item]) -> Result<String, AllocError> {
    let mut text = String::new(alloc);
    for item in items {
        if !text.is_empty() {
            text.push(';')?;
        }
        put_item(&mut text, item)?;
    }
    Ok(text)
}
