//! Each word as the first one of an instruction.

ghost use Rattle.std.specs.Prelude.{◌≡◌, ◌%◌};

use hex_digits::word;
use image::Image;
use msp430_decode::{NoInstr, decode, encode};
use std::alloc::{AllocError, Global};

/// A word and the 32,767 next ones, each with its low byte first.
fn bytes_of_words(alloc: Global, first: u16) -> Result<Vec<u8>, AllocError> {
    let mut bytes = Vec::new(alloc);
    for i in 0..32768u16 {
        let word = first.wrapping_add(i);
        bytes.push((word % 256) as u8)?;
        bytes.push((word / 256) as u8)?;
    }
    Ok(bytes)
}

/// Whether an instruction at an address has the bytes that stand there, and this length.
fn has_bytes(image: &Image, pc: u16, bytes: &[u8], length: u8) -> bool {
    let mut at = pc;
    for byte in bytes {
        if image.byte(at) != Some(*byte) {
            return false;
        }
        at = at.wrapping_add(1);
    }
    bytes.len() == length as usize
}

/// Whether the word at an address is excluded; none, where what is decoded there isn't what stands there.
fn is_excluded(image: &Image, pc: u16) -> Option<bool>
    requires { pc % 2 ≡ 0 }
{
    match decode(image, pc) {
        Ok((instr, length)) => {
            if has_bytes(image, pc, encode(&instr).as_slice(), length) {
                Some(false)
            } else {
                None
            }
        }
        Err(NoInstr::Excluded) => Some(true),
        Err(NoInstr::OffImage(_)) => None,
    }
}

/// How many words of an image of all words are excluded.
fn excluded(image: &Image) -> Option<u32> {
    let mut count = 0u32;
    for i in 0..32768u16 {
        if is_excluded(image, 2 * i)? {
            count = count.wrapping_add(1);
        }
    }
    Some(count)
}

/// Whether just so many of the words from one on are excluded.
pub fn are_excluded(alloc: Global, row: &str) -> Result<bool, AllocError> {
    let (first, count) = row.split_once(' ').unwrap_or(("", ""));
    let (Some(first), Ok(count)) = (word(first.as_bytes()), count.parse::<u32>()) else {
        return Ok(false);
    };
    match Image::with_bytes(alloc, 0, &bytes_of_words(alloc, first)?) {
        Ok(image) => Ok(excluded(&image) == Some(count)),
        Err(_) => Err(AllocError),
    }
}
