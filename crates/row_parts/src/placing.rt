//! Images as rows write them.

ghost use Rattle.std.specs.Prelude.{◌≡◌, IfOk, length};

use hex_digits::{bytes, word};
use image::Image;
use std::alloc::{AllocError, Global};

/// Nothing at all addresses.
pub(crate) fn nothing(alloc: Global) -> Result<Vec<Option<u8>>, AllocError>
    ensures { IfOk result (λ places. length places.items ≡ 65536) }
{
    vec![in alloc; None; 65536]
}

/// Places the bytes of digits from an address on, and says whether they are some.
fn place(
    alloc: Global,
    places: &mut [Option<u8>],
    at: u16,
    digits: &[u8],
) -> Result<bool, AllocError>
    requires { length places.old ≡ 65536 }
{
    let Some(bytes) = bytes(alloc, digits)? else {
        return Ok(false);
    };
    let mut at = at;
    for byte in &bytes {
        places[at as usize] = Some(*byte);
        at = at.wrapping_add(1);
    }
    Ok(true)
}

/// Places the bytes of a piece, from F000h on or from the address in front of them.
fn place_piece(alloc: Global, places: &mut [Option<u8>], piece: &str) -> Result<bool, AllocError>
    requires { length places.old ≡ 65536 }
{
    let Some((front, digits)) = piece.split_once(':') else {
        return place(alloc, places, 0xF000, piece.as_bytes());
    };
    match word(front.as_bytes()) {
        Some(at) => place(alloc, places, at, digits.as_bytes()),
        None => Ok(false),
    }
}

/// Places pieces, and says whether they have digits of bytes.
fn place_all(alloc: Global, places: &mut [Option<u8>], pieces: &str) -> Result<bool, AllocError>
    requires { length places.old ≡ 65536 }
{
    for piece in pieces.split(',') {
        if !place_piece(alloc, places, piece)? {
            return Ok(false);
        }
    }
    Ok(true)
}

/// An image of pieces with commas between them: the digits of bytes, which stand from F000h on, or from the address in front of
/// them and a colon. Pieces of another form are none.
pub fn image_of(alloc: Global, pieces: &str) -> Result<Option<Image>, AllocError> {
    let mut places = nothing(alloc)?;
    if place_all(alloc, &mut places, pieces)? {
        Ok(Some(Image::new(places)))
    } else {
        Ok(None)
    }
}
