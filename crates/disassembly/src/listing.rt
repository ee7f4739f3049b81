//! The disassembly of an image.

ghost use Rattle.std.specs.Prelude.{◌≡◌, ◌⊎◌, ◌+◌, ◌++◌, ◌%◌, ◌≤◌, ℕ, List, Option, IfOk, OnOk};
ghost use Rattle.hex_digits.specs.Digits.{hex_bytes};
ghost use Rattle.image.specs.Image.{byte_at};
ghost use Rattle.disassembly.specs.Listing.{IsDisassembly, disassembly_line, lines_at, passed_at, second_at, shown, unknown_lines};

use crate::code::{Code, Line};
use hex_digits::{hex_byte, hex_word};
use image::Image;
use std::alloc::{AllocError, Global};

/// Adds two digits for each byte.
fn push_bytes(lines: &mut Vec<u8>, bytes: &[u8]) -> Result<(), AllocError>
    ensures { OnOk result (lines.new.items ≡ lines.old.items ++ hex_bytes bytes.now) }
{
    for byte in bytes {
        lines.extend_from_slice(&hex_byte(*byte))?;
    }
    Ok(())
}

/// Adds the line of bytes at an address, with what they are.
fn push_line(lines: &mut Vec<u8>, at: u16, bytes: &[u8], text: &[u8]) -> Result<(), AllocError>
    ensures { OnOk result (lines.new.items ≡ lines.old.items ++ disassembly_line at bytes.now text.now) }
{
    lines.extend_from_slice(&hex_word(at))?;
    lines.push(b' ')?;
    push_bytes(lines, bytes)?;
    lines.push(b' ')?;
    lines.extend_from_slice(text)?;
    lines.push(b'\n').map_err(AllocError::from)
}

/// Adds what is there of a unit that is no instruction.
fn push_unknown(
    lines: &mut Vec<u8>,
    at: u16,
    first: Option<u8>,
    second: Option<u8>,
) -> Result<(), AllocError>
    requires { at + 1 ≤ 65535 ⊎ second ≡ None }
    ensures { OnOk result (lines.new.items ≡ lines.old.items ++ unknown_lines at first second) }
{
    match (first, second) {
        (Some(low), Some(high)) => push_line(lines, at, &[low, high], b"?"),
        (Some(low), None) => push_line(lines, at, &[low], b"?"),
        (None, Some(high)) => push_line(lines, at + 1, &[high], b"?"),
        (None, None) => Ok(()),
    }
}

/// The second byte of the unit at an address, if it has one.
fn second_of(image: &Image, unit: u32, at: u16) -> Option<u8>
    requires { unit ≡ 2 → at % 2 ≡ 0 }
    ensures value { result ≡ second_at unit image.now at }
    ensures within { (at + 1 ≤ 65535) ⊎ (result ≡ None) }
{
    if unit == 2 { image.byte(at + 1) } else { None }
}

/// Adds what is told of the unit at an address, by what stands there, and gives the address up to which it passes.
fn push_found(
    lines: &mut Vec<u8>,
    image: &Image,
    unit: u32,
    at: u16,
    found: Option<Line>,
) -> Result<u32, AllocError>
    requires size { (unit ≡ 1) ⊎ (unit ≡ 2) }
    requires whole { at % unit ≡ 0 }
    ensures lines { OnOk result (lines.new.items ≡ lines.old.items ++ lines_at unit image.now at (shown found)) }
    ensures passed { IfOk result (λ passed. passed ≡ passed_at unit at (shown found)) }
{
    match found {
        Some(line) => {
            push_line(
                lines,
                at,
                line.bytes.as_slice(),
                line.text.as_str().as_bytes(),
            )?;
            Ok(at as u32 + line.bytes.len() as u32)
        }
        None => {
            push_unknown(lines, at, image.byte(at), second_of(image, unit, at))?;
            Ok(at as u32 + unit)
        }
    }
}

/// The disassembly of an image, in time linear in its size.
pub fn disassembly_of<C: Code>(alloc: Global, image: &Image) -> Result<Vec<u8>, AllocError>
    ensures text { IfOk result (λ lines. IsDisassembly C.unit C.reads image.now lines.items) }
    ensures only { IfOk result (λ lines. (other : List ℕ) → IsDisassembly C.unit C.reads image.now other → other ≡ lines.items) }
{
    C::one_answer();
    let unit = C::unit();
    let mut lines = Vec::new(alloc);
    let mut passed = 0;
    for index in 0..65536 / unit {
        let at = unit * index;
        if at < passed {
            continue;
        }
        let found = C::line_at(image, at as u16);
        passed = push_found(&mut lines, image, unit, at as u16, found)?;
    }
    Ok(lines)
}
