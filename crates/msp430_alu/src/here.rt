//! Where an instruction stands, with what is known there.

ghost use Rattle.std.specs.Prelude.{◌≡◌, ◌+◌, ◌%◌};

use entry_value::Cells;
use msp430_chip::Device;
use msp430_state::State;

/// An instruction of so many bytes at an address of a device, in an interrupt's frame or in none, and what is known of the
/// state in front of it.
#[derive(Drop)]
pub struct Here<'a, M: Cells> {
    pub device: &'a Device,
    pub framed: bool,
    pub state: &'a State<M>,
    pub pc: u16,
    pub len: u8,
}

impl<'a, M: Cells> Here<'a, M> {
    /// The address behind the instruction.
    pub fn behind(&self) -> u16
        ensures { result ≡ (self.now.pc + self.now.len) % 65536 }
    {
        self.pc.wrapping_add(self.len as u16)
    }
}
