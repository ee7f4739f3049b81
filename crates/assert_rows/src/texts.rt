//! Texts of assertions.

use assert_check::{AssertError, MOST_BYTES, read_lines};
use chip_numbers::Space;
use std::alloc::{AllocError, Global};

const BOTH: [Space; 2] = [Space::Sfr, Space::Xram];

/// How many assertions stand in a text, or the first line that is refused.
pub fn read_in(alloc: Global, text: &str) -> Result<String, AllocError> {
    let bytes = text.as_bytes();
    if bytes.len() > MOST_BYTES {
        return String::from_str(alloc, "too long");
    }
    match read_lines(alloc, bytes, &BOTH) {
        Ok(list) => format!(in alloc; "{}", list.len()),
        Err(AssertError::Syntax { line }) => format!(in alloc; "line {line}"),
        Err(AssertError::Memory) => Err(AllocError),
    }
}

/// The assertions of a text, with their lines.
pub fn list_in(alloc: Global, text: &str) -> Result<String, AllocError> {
    let bytes = text.as_bytes();
    if bytes.len() <= MOST_BYTES
        && let Ok(list) = read_lines(alloc, bytes, &BOTH)
    {
        return format!(in alloc; "{:?}", list.as_slice());
    }
    String::from_str(alloc, "refused")
}

/// What is said of a text with this third line, and another that is refused behind it.
pub fn third(alloc: Global, line: &str) -> Result<String, AllocError> {
    let text = format!(in alloc; "noexec 0000-0000\n\n{line}\nxyz\n")?;
    read_in(alloc, text.as_str())
}

/// What is said of a text with so many such lines in front of a rest.
pub fn many(alloc: Global, asked: &str) -> Result<String, AllocError> {
    let (count, rest) = asked.split_once(' ').unwrap_or((asked, ""));
    let (line, rest) = rest.split_once('|').unwrap_or((rest, ""));
    let mut text = String::new(alloc);
    for _ in 0..count.parse::<u16>().unwrap_or(0) {
        text.push_str(line)?;
    }
    text.push_str(rest)?;
    read_in(alloc, text.as_str())
}
