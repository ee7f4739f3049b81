//! What is said of inputs, and of how far an analysis is.

use hex_digits::bytes;
use row_parts::text_of;
use std::alloc::{AllocError, Global};
use vsa_advice::{line_of, megabytes_in, other_input};

/// What an input is that begins with these bytes.
fn said_of(alloc: Global, first: &[u8]) -> Result<String, AllocError> {
    String::from_str(alloc, other_input(first).unwrap_or("none"))
}

/// What an input is that begins with a text.
pub fn input(alloc: Global, asked: &str) -> Result<String, AllocError> {
    let text = text_of(alloc, asked)?;
    said_of(alloc, text.as_str().as_bytes())
}

/// What an input is that begins with the bytes of these digits.
pub fn binary(alloc: Global, asked: &str) -> Result<String, AllocError> {
    match bytes(alloc, asked.as_bytes())? {
        Some(first) => said_of(alloc, first.as_slice()),
        None => String::from_str(alloc, "no digits"),
    }
}

/// How far an analysis is, by its second, megabytes, turns, nodes and units.
pub fn progress(alloc: Global, asked: &str) -> Result<String, AllocError> {
    let mut numbers = asked.split(' ').map(|text| text.parse::<u64>().ok());
    let second = numbers.next().flatten().unwrap_or(0);
    let memory = numbers.next().flatten();
    let turns = numbers.next().flatten().unwrap_or(0);
    let nodes = numbers.next().flatten().unwrap_or(0);
    let waiting = numbers.next().flatten().unwrap_or(0);
    line_of(alloc, second, memory, turns, (nodes, waiting))
}

/// The megabytes that a text tells of a process.
pub fn memory(alloc: Global, text: &str) -> Result<String, AllocError> {
    match megabytes_in(text) {
        Some(megabytes) => format!(in alloc; "{megabytes}"),
        None => String::from_str(alloc, "none"),
    }
}
