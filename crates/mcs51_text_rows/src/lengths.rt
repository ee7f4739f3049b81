//! Lengths of instructions, as Intel's table "Instruction Opcodes in Hexadecimal Order" has them.

use hex_digits::byte;
use image::Image;
use mcs51_decode::{NoInstr, decode, encode, from_bytes};
use std::alloc::{AllocError, Global};

/// Whether an opcode with two bytes behind it is an instruction of this length, whose bytes these are again.
fn is_length(alloc: Global, opcode: u8, length: u8) -> Result<bool, AllocError> {
    let bytes = [opcode, 0x9C, 0x37];
    let Ok(image) = Image::with_bytes(alloc, 0x1234, &bytes) else {
        return Err(AllocError);
    };
    Ok(match decode(&image, 0x1234) {
        Ok((instr, found)) => {
            let encoded = encode(&instr);
            found == length
                && instr.length() == length
                && Some(encoded.as_slice()) == bytes.get(..length as usize)
                && from_bytes(encoded.as_slice()) == Some(instr)
        }
        Err(refusal) => {
            length == 0 && refusal == NoInstr::Excluded && from_bytes(&bytes[..1]).is_none()
        }
    })
}

/// Whether each opcode from one on has the length of its digit.
pub fn are_lengths(alloc: Global, row: &str) -> Result<bool, AllocError> {
    let (first, digits) = row.split_once(' ').unwrap_or(("", ""));
    let Some(opcode) = byte(first.as_bytes()) else {
        return Ok(false);
    };
    let mut opcode = opcode as u8;
    for digit in digits.as_bytes() {
        if !is_length(alloc, opcode, digit.wrapping_sub(b'0'))? {
            return Ok(false);
        }
        opcode = opcode.wrapping_add(1);
    }
    Ok(digits.len() == 16)
}
