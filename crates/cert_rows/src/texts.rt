//! Texts of rows.

use hex_digits::hex_word;
use std::alloc::{AllocError, Global};

/// The text that a row writes with `\n` and `\r`.
pub fn text_of(alloc: Global, written: &str) -> Result<String, AllocError> {
    let text = written.replace(alloc, "\\n", "\n")?;
    text.as_str().replace(alloc, "\\r", "\r")
}

/// The certificate of a table of two nodes at each address below this one but for the first two, which have one.
pub fn long_certificate(alloc: Global, addresses: u16) -> Result<Vec<u8>, AllocError> {
    let mut text = Vec::new(alloc);
    text.extend_from_slice(b"CERT 1\nN 0000::base 0002\nN 0001::base 0001\n")?;
    for pc in 2..addresses {
        text.extend_from_slice(b"N ")?;
        text.extend_from_slice(&hex_word(pc))?;
        text.extend_from_slice(b"::base 0000\nN ")?;
        text.extend_from_slice(&hex_word(pc))?;
        text.extend_from_slice(b"::irq9@-.0 0000\n")?;
    }
    text.extend_from_slice(b"END\n")?;
    Ok(text)
}
