//! The bytes of RAM.

ghost use Rattle.std.specs.Prelude.{◌≡◌, ◌<◌, IfOk, length, replicate, slice_index, slice_set};

use std::alloc::{AllocError, Global};
use std::marker::Model;

/// A fixed number of bytes, which contracts see as the list of them.
#[derive(Drop)]
pub struct Ram {
    bytes: Vec<u8>,
}

impl Model for Ram {
    ghost use Rattle.std.specs.Prelude.{List, ℕ};

    ghost Value = { List ℕ };

    ghost view = { λ ram. ram.bytes.items };
}

impl Ram {
    /// So many zeros.
    pub fn new(alloc: Global, size: usize) -> Result<Ram, AllocError>
        ensures { IfOk result (λ ram. ram ≡ replicate size 0) }
    {
        let mut bytes = Vec::new(alloc);
        bytes.resize(size, 0)?;
        Ok(Ram { bytes })
    }

    /// The byte at a place.
    pub fn byte(&self, place: usize) -> u8
        requires { place < length self.now }
        ensures { result ≡ slice_index self.now place }
    {
        self.bytes[place]
    }

    /// Puts a byte at a place.
    pub fn set(&mut self, place: usize, byte: u8)
        requires { place < length self.old }
        ensures { self.new ≡ slice_set self.old place byte }
    {
        self.bytes[place] = byte;
    }
}
