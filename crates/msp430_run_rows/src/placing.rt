//! The image and the choices of a row.

use choosing::Choices;
use hex_digits::word;
use image::Image;
use row_parts::image_of;
use std::alloc::{AllocError, Global};

/// The choices of a row, four digits each.
pub fn choices_of(alloc: Global, text: &str) -> Result<Option<Choices>, AllocError> {
    let mut list = Vec::new(alloc);
    if text != "-" {
        for digits in text.split(',') {
            let Some(choice) = word(digits.as_bytes()) else {
                return Ok(None);
            };
            list.push(choice)?;
        }
    }
    Ok(Some(Choices::new(list)))
}

/// An image of these pieces, with F000h as the reset vector.
pub fn image_with(alloc: Global, pieces: &str) -> Result<Option<Image>, AllocError> {
    let pieces = format!(in alloc; "FFFE:00F0,{pieces}")?;
    image_of(alloc, pieces.as_str())
}
