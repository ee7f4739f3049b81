//! Texts of promises.

use crate::small::SmallImage;
use promises::{MOST_BYTES, Promise, PromiseError, push_promise, read_promises};
use std::alloc::{AllocError, Global};

/// The sentence of a promise.
fn sentence(alloc: Global, promise: &Promise) -> Result<String, AllocError> {
    let mut line = Vec::new(alloc);
    push_promise(promise, &mut line)?;
    let line = String::from_utf8_lossy(alloc, line.as_slice())?;
    String::from_str(alloc, line.as_str().strip_prefix("P ").unwrap_or(""))
}

/// The promises of a list, with the numbers of their lines.
fn shown(alloc: Global, list: &[(u32, Promise)]) -> Result<String, AllocError> {
    let mut text = String::new(alloc);
    for (line, promise) in list {
        let said = sentence(alloc, promise)?;
        let said = format!(in alloc; "{line} {}; ", said.as_str())?;
        text.push_str(said.as_str())?;
    }
    Ok(text)
}

/// Their sentences, on a line each.
fn printed(alloc: Global, list: &[(u32, Promise)]) -> Result<String, AllocError> {
    let mut text = String::new(alloc);
    for (_, promise) in list {
        text.push_str(sentence(alloc, promise)?.as_str())?;
        text.push('\n')?;
    }
    text.push_str("END")?;
    Ok(text)
}

/// Whether printed promises are read again.
fn comes_again(
    alloc: Global,
    image: SmallImage,
    list: &[(u32, Promise)],
) -> Result<bool, AllocError> {
    let text = printed(alloc, list)?;
    let bytes = text.as_str().as_bytes();
    if bytes.len() > MOST_BYTES {
        return Ok(false);
    }
    match read_promises(alloc, bytes, &image) {
        Ok((again, _)) => {
            let again = printed(alloc, again.as_slice())?;
            Ok(again.as_str() == text.as_str())
        }
        Err(PromiseError::Memory) => Err(AllocError),
        Err(PromiseError::Bad { .. }) => Ok(false),
    }
}

/// The promises of a text and what stands behind them, or the first faulty line.
pub fn read_in(alloc: Global, image: SmallImage, text: &str) -> Result<String, AllocError> {
    let bytes = text.as_bytes();
    if bytes.len() > MOST_BYTES {
        return String::from_str(alloc, "too long");
    }
    match read_promises(alloc, bytes, &image) {
        Ok((list, begin)) => {
            if !comes_again(alloc, image, list.as_slice())? {
                return String::from_str(alloc, "printed otherwise");
            }
            let said = shown(alloc, list.as_slice())?;
            let rest = String::from_utf8_lossy(alloc, &bytes[begin..])?;
            format!(in alloc; "{}|{}", said.as_str(), rest.as_str())
        }
        Err(PromiseError::Memory) => Err(AllocError),
        Err(error) => format!(in alloc; "{error}"),
    }
}

/// How many promises are read, or the first faulty line.
pub fn count_in(alloc: Global, image: SmallImage, text: &str) -> Result<String, AllocError> {
    let bytes = text.as_bytes();
    if bytes.len() > MOST_BYTES {
        return String::from_str(alloc, "too long");
    }
    match read_promises(alloc, bytes, &image) {
        Ok((list, _)) => format!(in alloc; "{}", list.len()),
        Err(PromiseError::Memory) => Err(AllocError),
        Err(error) => format!(in alloc; "{error}"),
    }
}

/// So many addresses from C000h on, each 2 above the last, with this between each two.
pub fn addresses(alloc: Global, count: u16, between: &str) -> Result<String, AllocError> {
    let mut text = String::new(alloc);
    for i in 0..count {
        if i > 0 {
            text.push_str(between)?;
        }
        let at = format!(in alloc; "{:04X}", 0xC000u32 + 2 * u32::from(i))?;
        text.push_str(at.as_str())?;
    }
    Ok(text)
}
