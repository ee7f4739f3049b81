//! A memory image: a byte or none at each of the 65,536 addresses.

ghost use Rattle.std.specs.Prelude.{◌≡◌, ◌↔◌, length, replicate, IfOk, IsTrue};
ghost use Rattle.image.specs.Image.{byte_at, placed, Meets};

use no_memory::Memory;
use std::alloc::Global;
use std::marker::Model;

/// The bytes of a program at their addresses. Contracts see what stands at each of the 65,536 addresses, in order.
#[derive(Debug, Drop)]
pub struct Image {
    bytes: Vec<Option<u8>>,
}

impl Model for Image {
    ghost use Rattle.std.specs.Prelude.{◌≡◌, ℕ, List, Option, length};

    ghost Value = { List (Option ℕ) };

    ghost view = { λ a. a.bytes.items };

    ghost invariant = { λ a. length a.bytes.items ≡ 65536 };
}

impl Image {
    /// Of what stands at the 65,536 addresses.
    pub fn new(bytes: Vec<Option<u8>>) -> Image
        requires { length bytes.items ≡ 65536 }
        ensures { result ≡ bytes.items }
    {
        Image { bytes }
    }

    /// Of these bytes from an address on, and no others. They go on at 0 behind FFFFh.
    pub fn with_bytes(alloc: Global, at: u16, bytes: &[u8]) -> Result<Image, Memory>
        ensures { IfOk result (λ image. image ≡ placed at bytes.now (replicate 65536 None)) }
    {
        let mut places = vec![in alloc; None; 65536]?;
        let mut at = at;
        for byte in bytes {
            places[usize::from(at)] = Some(*byte);
            at = at.wrapping_add(1);
        }
        Ok(Image { bytes: places })
    }

    /// An equal image.
    pub fn copy(&self, alloc: Global) -> Result<Image, Memory>
        ensures { IfOk result (λ copy. copy ≡ self.now) }
    {
        Ok(Image {
            bytes: Vec::from_slice(alloc, self.bytes.as_slice())?,
        })
    }

    /// The byte at an address, where the image has one.
    pub fn byte(&self, at: u16) -> Option<u8>
        ensures { result ≡ byte_at self.now at }
    {
        self.bytes[usize::from(at)]
    }

    /// Whether the image has a byte at one of the `len` addresses from `lo` on, modulo 65,536.
    pub fn meets(&self, lo: u16, len: u32) -> bool
        ensures { IsTrue result ↔ Meets self.now lo len }
    {
        for i in 0..len.min(65536) {
            let at = (u32::from(lo) + i) % 65536;
            if self.bytes[at as usize].is_some() {
                return true;
            }
        }
        false
    }
}
