//! The device.

ghost use Rattle.std.specs.Prelude.{◌≡◌, IfOk};

use image::{Image, RamRange};
use no_memory::Memory;
use std::alloc::Global;

/// An MSP430 with a program in its memory, and where its RAM stands, from an even to an odd address. On some devices RAM
/// answers a second time, from the first to the last address of a mirror.
#[derive(Drop)]
pub struct Device {
    pub image: Image,
    pub ram: RamRange,
}

impl Device {
    /// The same device once more.
    pub fn copy(&self, alloc: Global) -> Result<Device, Memory>
        ensures { IfOk result (λ device. device ≡ self.now) }
    {
        Ok(Device {
            image: self.image.copy(alloc)?,
            ram: self.ram,
        })
    }
}
