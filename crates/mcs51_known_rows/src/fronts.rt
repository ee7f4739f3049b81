//! Rows of what is known in front of instructions whose steps keep promises.

use crate::states::{is_changed, state_of};
use image::Image;
use mcs51_decode::decode;
use mcs51_kept::{Sites, front};
use no_memory::Memory;
use promises::{MOST_BYTES, Promise, PromiseError, read_promises};
use row_parts::{CodeRow, add_line};
use std::alloc::{AllocError, Global};

/// The text of sentences that have semicolons between them.
fn text_of(alloc: Global, sentences: &str) -> Result<String, AllocError> {
    let mut text = String::new(alloc);
    for sentence in sentences.split(';') {
        add_line(&mut text, sentence)?;
    }
    add_line(&mut text, "END")?;
    Ok(text)
}

/// What sentences promise of an image, if they may.
fn promises_of(
    alloc: Global,
    sentences: &str,
    image: &Image,
) -> Result<Option<Vec<Promise>>, Memory> {
    let text = text_of(alloc, sentences)?;
    if text.len() > MOST_BYTES {
        return Ok(None);
    }
    let list = match read_promises(alloc, text.as_bytes(), &Sites { image }) {
        Ok((list, _)) => list,
        Err(PromiseError::Memory) => return Err(Memory),
        Err(PromiseError::Bad { .. }) => return Ok(None),
    };
    let mut promises = Vec::new(alloc);
    for (_, promise) in list {
        promises.push(promise)?;
    }
    Ok(Some(promises))
}

/// Whether what is known in front of an instruction is what a row says.
pub fn is_front(alloc: Global, words: &str, after: &str) -> Result<bool, Memory> {
    let (sentences, code) = words.split_once(" | ").unwrap_or(("", ""));
    let Some(row) = CodeRow::of(alloc, code)? else {
        return Ok(false);
    };
    let (Some(promises), Ok((instr, _)), Some((_, at))) = (
        promises_of(alloc, sentences, &row.image)?,
        decode(&row.image, row.pc),
        state_of(alloc, row.rest)?,
    ) else {
        return Ok(false);
    };
    match front(alloc, &row.image, promises.as_slice(), &at, row.pc, &instr)? {
        Some(found) => is_changed(&found, at, after),
        None => Ok(after.trim().is_empty()),
    }
}
