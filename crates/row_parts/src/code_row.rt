//! Rows that begin with code.

ghost use Rattle.std.specs.Prelude.{◌≡◌, length};

use crate::placing::nothing;
use hex_digits::{byte, word};
use image::Image;
use std::alloc::{AllocError, Global};

/// A row that begins with an address and the digits of the bytes there. Two dots are an address without a byte.
#[derive(Drop)]
pub struct CodeRow<'a> {
    pub pc: u16,
    pub bytes: Vec<u8>,
    /// An image of these bytes alone.
    pub image: Image,
    /// What stands behind them.
    pub rest: &'a str,
}

/// Places the bytes of digits from an address on, adds them to a list, and says whether these are digits.
fn place(
    places: &mut [Option<u8>],
    pc: u16,
    digits: &[u8],
    bytes: &mut Vec<u8>,
) -> Result<bool, AllocError>
    requires { length places.old ≡ 65536 }
{
    let mut at = pc;
    for pair in digits.chunks(2) {
        if pair != b"..".as_slice() {
            let Some(value) = byte(pair) else {
                return Ok(false);
            };
            places[usize::from(at)] = Some(value as u8);
            bytes.push(value as u8)?;
        }
        at = at.wrapping_add(1);
    }
    Ok(true)
}

impl<'a> CodeRow<'a> {
    /// The row of a line. One of another form is none.
    pub fn of(alloc: Global, line: &'a str) -> Result<Option<CodeRow<'a>>, AllocError> {
        let mut words = line.splitn(3, ' ');
        let Some(pc) = word(words.next().unwrap_or("").as_bytes()) else {
            return Ok(None);
        };
        let mut places = nothing(alloc)?;
        let mut bytes = Vec::new(alloc);
        let digits = words.next().unwrap_or("").as_bytes();
        if !place(&mut places, pc, digits, &mut bytes)? {
            return Ok(None);
        }
        Ok(Some(CodeRow {
            pc,
            bytes,
            image: Image::new(places),
            rest: words.next().unwrap_or(""),
        }))
    }
}
