//! What rows begin with, and how they are held against answers.

ghost use Rattle.std.specs.Prelude.{IfOk};
ghost use Rattle.msp430_chip.specs.Memory.{HasRam};

use entry_value::{Entry, Word};
use image::{Image, RamRange};
use msp430_chip::Device;
use std::alloc::Global;
use std::fmt::Debug;
use std::process::Abort;
use std::test::Fail;
use value_set::Vs16;

/// Of the vectors 0 is erased, 1 is FFFEh and 9 is F101h; the others aren't in the image.
fn image(alloc: Global) -> Result<Image, Fail> {
    let mut bytes = Vec::new(alloc);
    bytes.resize(65536, None)?;
    bytes[0xFFE0] = Some(0xFF);
    bytes[0xFFE1] = Some(0xFF);
    bytes[0xFFE2] = Some(0xFE);
    bytes[0xFFE3] = Some(0xFF);
    bytes[0xFFF2] = Some(0x01);
    bytes[0xFFF3] = Some(0xF1);
    Ok(Image::new(bytes))
}

/// RAM from 0200h to 02FFh.
pub(crate) const RAM: RamRange = RamRange {
    lo: 0x0200,
    hi: 0x02FF,
    mirror: None,
};

/// RAM from 1100h to 38FFh, of which 0200h to 09FFh show the first 2048 bytes again.
pub(crate) const MIRRORED_RAM: RamRange = RamRange {
    lo: 0x1100,
    hi: 0x38FF,
    mirror: Some((0x0200, 0x09FF)),
};

/// A device with plain RAM.
pub(crate) fn device(alloc: Global) -> Result<Device, Fail>
    ensures { IfOk result HasRam }
{
    Ok(Device {
        image: image(alloc)?,
        ram: RAM,
    })
}

/// A device whose RAM has a mirror.
pub(crate) fn mirrored_device(alloc: Global) -> Result<Device, Fail>
    ensures { IfOk result HasRam }
{
    Ok(Device {
        image: image(alloc)?,
        ram: MIRRORED_RAM,
    })
}

pub(crate) fn one(value: u16) -> Vs16 {
    Vs16::one(value)
}

pub(crate) fn two(low: u16, high: u16) -> Vs16 {
    one(low).join(&one(high))
}

/// Numbers from a base on by a stride.
pub(crate) fn run(base: u16, stride: u16, count: u32) -> Vs16 {
    Vs16::run(base, stride, count).unwrap_or(Vs16::any())
}

/// A number of which no place is known that it came from.
pub(crate) fn number(value: u16) -> Word {
    Word {
        set: one(value),
        entry: None,
    }
}

/// That a value is what a place held, behind an AND.
pub(crate) fn from(place: u16, and: u16) -> Option<Entry> {
    Some(Entry { place, and, or: 0 })
}

/// A number that a place held.
pub(crate) fn related(value: u16, place: u16) -> Word {
    Word {
        set: one(value),
        entry: from(place, 0xFFFF),
    }
}

/// Each answer is the one beside it.
pub(crate) fn are_equal<T: Debug + PartialEq>(rt: &impl Abort, rows: &[(T, T)]) {
    for (found, wanted) in rows {
        assert_eq!(rt; *found, *wanted);
    }
}
