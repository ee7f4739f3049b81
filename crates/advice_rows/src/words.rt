//! What is said of the words of a command line.

use row_parts::words_of;
use std::alloc::{AllocError, Global};
use vsa_advice::{Slip, USAGE, slip_of};
use vsa_words::{OptionName, Value, number_in, range_of};

/// What is wrong with words.
pub fn slip(alloc: Global, asked: &str) -> Result<String, AllocError> {
    let words = words_of(alloc, asked)?;
    match slip_of(alloc, words.as_slice())? {
        Slip::Wrong(text) => Ok(text),
        Slip::Help => String::from_str(alloc, "help"),
    }
}

/// A number of decimal digits between two others.
pub fn number(alloc: Global, asked: &str) -> Result<String, AllocError> {
    let mut parts = asked.split(' ');
    let digits = parts.next().unwrap_or("");
    let least = bound(parts.next());
    let most = bound(parts.next());
    match number_in(digits.as_bytes(), least, most) {
        Some(number) => format!(in alloc; "{number}"),
        None => String::from_str(alloc, "none"),
    }
}

/// A bound of a number.
fn bound(text: Option<&str>) -> u32 {
    text.unwrap_or("").parse::<u32>().unwrap_or(0)
}

/// A range of addresses.
pub fn range(alloc: Global, asked: &str) -> Result<String, AllocError> {
    match range_of(asked.as_bytes()) {
        Some(span) => format!(in alloc; "{:04X}-{:04X}", span.lo, span.hi),
        None => String::from_str(alloc, "none"),
    }
}

/// Whether the usage has a line of an option, with the numbers that it takes.
fn is_in_usage(alloc: Global, option: OptionName) -> Result<bool, AllocError> {
    let head = format!(in alloc; "  --{}", option.word())?;
    let Some(line) = USAGE.lines().find(|line| line.starts_with(head.as_str())) else {
        return Ok(false);
    };
    match option.value() {
        Value::Number { least, most } => {
            let numbers = format!(in alloc; "{least} to {most}")?;
            Ok(line.contains(numbers.as_str()))
        }
        _ => Ok(true),
    }
}

/// The first option that the usage lacks, or whose numbers it lacks.
pub fn usage(alloc: Global) -> Result<String, AllocError> {
    for option in OptionName::ALL {
        if !is_in_usage(alloc, option)? {
            return String::from_str(alloc, option.word());
        }
    }
    String::from_str(alloc, "none")
}
