//! Texts as rows write them.

use std::alloc::{AllocError, Global};

/// The text that a row writes with `\n`, `\r` and `\t`.
pub fn text_of(alloc: Global, written: &str) -> Result<String, AllocError> {
    let text = written.replace(alloc, "\\n", "\n")?;
    let text = text.as_str().replace(alloc, "\\r", "\r")?;
    text.as_str().replace(alloc, "\\t", "\t")
}

/// Adds a line to a text.
pub fn add_line(text: &mut String, line: &str) -> Result<(), AllocError> {
    text.push_str(line)?;
    text.push('\n')?;
    Ok(())
}

/// The words of a line, as a command line has them.
pub fn words_of(alloc: Global, line: &str) -> Result<Vec<String>, AllocError> {
    let mut words = Vec::new(alloc);
    for word in line.split_ascii_whitespace() {
        words.push(String::from_str(alloc, word)?)?;
    }
    Ok(words)
}
