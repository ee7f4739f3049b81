//! A plain RAM beside the cells.

use crate::values::{Put, Value};
use entry_value::Cells;
use std::alloc::{AllocError, Global};

/// The bytes of all addresses.
#[derive(Drop)]
pub struct Plain {
    bytes: Vec<u8>,
}

impl Plain {
    /// All bytes are 0.
    pub fn new(alloc: Global) -> Result<Plain, AllocError> {
        let mut bytes = Vec::new(alloc);
        bytes.resize(0x10000, 0u8)?;
        Ok(Plain { bytes })
    }

    fn byte(&self, at: u16) -> u8 {
        self.bytes.get(at as usize).copied().unwrap_or(0)
    }

    fn word(&self, at: u16) -> u16 {
        u16::from_le_bytes([self.byte(at), self.byte(at.wrapping_add(1))])
    }

    fn put(&mut self, at: u16, number: u8) {
        if let Some(byte) = self.bytes.get_mut(at as usize) {
            *byte = number;
        }
    }

    /// Writes the first number of a value, or what stands where it is read, at its first address.
    pub fn write(&mut self, put: &Put) {
        let number = match put.value {
            Value::Byte(_) | Value::Word(_) => put.number,
            Value::ByteAt(place) | Value::WordAt(place) => self.word(place),
        };
        let [low, high] = number.to_le_bytes();
        self.put(put.first, low);
        if matches!(put.value, Value::Word(_) | Value::WordAt(_)) {
            self.put(put.first.wrapping_add(1), high);
        }
    }

    /// Whether what is read in so many places holds of what stands there.
    pub fn is_held<C: Cells>(&self, cells: &C, base: u16, places: u16) -> bool {
        for place in 0..places {
            let at = base.wrapping_add(place);
            let byte = cells.read(at, 1).set.has(u16::from(self.byte(at)));
            if !byte || !cells.read(at, 2).set.has(self.word(at)) {
                return false;
            }
        }
        true
    }
}
