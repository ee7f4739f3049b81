//! The image text of a program.

ghost use Rattle.std.specs.Prelude.{◌≡◌, ◌≤◌, IfOk};
ghost use Rattle.image_gen.specs.Made.{made_image};

use crate::records::{END, put_stretch};
use crate::{mcs51, msp430};
use image::ChipName;
use no_memory::Memory;
use std::alloc::Global;

/// The greatest number of functions.
pub const MOST: u32 = 2000;

/// The image text of a program of `number` functions.
pub fn make(alloc: Global, chip: ChipName, number: u32) -> Result<Vec<u8>, Memory>
    requires least { 1 ≤ number }
    requires most { number ≤ MOST }
    ensures { IfOk result (λ text. text.items ≡ made_image chip number) }
{
    let mut text = Vec::new(alloc);
    match chip {
        ChipName::Msp430 => {
            let program = msp430::program(alloc, number as u16)?;
            put_stretch(alloc, &mut text, msp430::START, &program)?;
            put_stretch(
                alloc,
                &mut text,
                msp430::RESET,
                &msp430::START.to_le_bytes(),
            )?;
        }
        ChipName::Mcs51 => {
            let program = mcs51::program(alloc, number as u16)?;
            put_stretch(alloc, &mut text, mcs51::RESET, &mcs51::JUMP)?;
            put_stretch(alloc, &mut text, mcs51::START, &program)?;
        }
    }
    text.extend_from_slice(END)?;
    Ok(text)
}
