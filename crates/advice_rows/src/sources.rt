//! What a source remembers of a text that was read in pieces.

use row_parts::words_of;
use std::alloc::{AllocError, Global};
use vsa_advice::{NotedSource, kept_text, lacks_assertions, mirrored_in};
use vsa_io::{CleanSource, Source};

/// How many bytes a read gives.
const PIECE: usize = 16;

/// A source of a text, behind so many reads.
fn read_of(
    alloc: Global,
    text: &str,
    pieces: usize,
) -> Result<NotedSource<CleanSource>, AllocError> {
    let bytes = Vec::from_slice(alloc, text.as_bytes())?;
    let mut source = NotedSource::new(CleanSource::new(bytes, PIECE), None);
    let mut buffer = [0u8; PIECE];
    for _ in 0..pieces {
        let _ = source.read(&mut buffer);
    }
    Ok(source)
}

/// A number of a row.
fn number_of(text: Option<&str>) -> usize {
    text.unwrap_or("").parse::<usize>().unwrap_or(0)
}

/// How many lines of the second text aren't blank, behind so many reads.
pub fn second(alloc: Global, asked: &str, text: &str) -> Result<String, AllocError> {
    let source = read_of(alloc, text, number_of(Some(asked)))?;
    format!(in alloc; "{}", source.second_lines())
}

/// Whether words ask for assertions and the text has none, behind as many reads as it takes.
pub fn unasked(alloc: Global, asked: &str, text: &str) -> Result<String, AllocError> {
    let source = read_of(alloc, text, text.len() / PIECE + 1)?;
    let words = words_of(alloc, asked)?;
    format!(in alloc; "{}", lacks_assertions(words.as_slice(), &source))
}

/// The address of the record in a line, behind so many reads.
pub fn address(alloc: Global, asked: &str, text: &str) -> Result<String, AllocError> {
    let mut words = asked.split(' ');
    let source = read_of(alloc, text, number_of(words.next()))?;
    match source.address_of(number_of(words.next())) {
        Some(address) => format!(in alloc; "{address:04X}"),
        None => String::from_str(alloc, "none"),
    }
}

/// The line of the first assertion of a text on the mirror alone, and where the mirrored RAM begins, where these words keep the
/// text.
pub fn mirrored(alloc: Global, asked: &str, text: &str) -> Result<String, AllocError> {
    let words = words_of(alloc, asked)?;
    if kept_text(alloc, words.as_slice()).is_none() {
        return String::from_str(alloc, "not kept");
    }
    match mirrored_in(alloc, words.as_slice(), text.as_bytes()) {
        Some(found) => format!(in alloc; "{} {:04X}", found.line, found.ram),
        None => String::from_str(alloc, "none"),
    }
}
