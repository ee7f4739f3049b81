//! What a row promises of its instruction.

use call_context::Sequence;
use image::Image;
use msp430_kept::Sites;
use no_memory::Memory;
use promises::{MOST_BYTES, Promise, PromiseError, read_promises};
use std::alloc::{AllocError, Global};

/// The windows of the row's own instruction, and those of each store; of none the text is empty.
#[derive(Clone, Copy)]
pub struct Promised<'a> {
    pub own: &'a str,
    pub all: &'a str,
}

/// The text of the promises.
fn text_of(alloc: Global, pc: u16, promised: Promised) -> Result<String, AllocError> {
    let mut text = String::new(alloc);
    if !promised.own.is_empty() {
        write!(text, "write {pc:04X} {}\n", promised.own)?;
    }
    if !promised.all.is_empty() {
        write!(text, "write * {}\n", promised.all)?;
    }
    text.push_str("END")?;
    Ok(text)
}

/// The promises of a row, if they can be made of the instruction at its address.
pub fn promises_of(
    alloc: Global,
    image: &Image,
    pc: u16,
    promised: Promised,
) -> Result<Option<Sequence<Promise>>, Memory> {
    let text = text_of(alloc, pc, promised)?;
    let bytes = text.as_str().as_bytes();
    if bytes.len() > MOST_BYTES {
        return Ok(None);
    }
    let list = match read_promises(alloc, bytes, &Sites { image }) {
        Ok((list, _)) => list,
        Err(PromiseError::Memory) => return Err(Memory),
        Err(PromiseError::Bad { .. }) => return Ok(None),
    };
    let mut promises = Sequence::new(alloc);
    for (_, promise) in list {
        promises.push(promise)?;
    }
    Ok(Some(promises))
}
