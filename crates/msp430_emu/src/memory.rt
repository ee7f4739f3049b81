//! Bytes and words of RAM and of the program.

ghost use Rattle.std.specs.Prelude.{◌≡◌, ◌+◌, ◌<◌, ◌≤◌, IfSome, length};
ghost use Rattle.msp430_chip.specs.Arithmetic.{modulus};
ghost use Rattle.msp430_chip.specs.Memory as memory;
ghost use Rattle.msp430_chip.specs.Memory.{HasRam};
ghost use Rattle.msp430_chip.specs.State as state;
ghost use Rattle.choosing.specs.Choosing.{asked};

use choosing::Unused;
use image::{Image, RamRange};
use msp430_chip::{Ram, place_laws};
use msp430_decode::Width;
use std::marker::Model;

/// A program, and where RAM stands. Contracts see the device.
#[derive(Drop)]
pub(crate) struct Layout<'a> {
    pub image: &'a Image,
    pub ram: RamRange,
}

impl<'a> Model for Layout<'a> {
    ghost use Rattle.msp430_chip.specs.declared.device.Device.{Device};
    ghost use Rattle.msp430_chip.specs.Memory.{HasRam};

    ghost Value = { Device };

    ghost view = { λ l. record { image = l.image.now; ram = l.ram } };

    ghost invariant = { λ l. HasRam (record { image = l.image.now; ram = l.ram }) };
}

/// A word without bit 0.
pub(crate) fn even(word: u16) -> u16
    ensures { result ≡ state.even word }
{
    word - word % 2
}

/// How many bytes an access has.
pub(crate) fn size_of(width: Width) -> u8
    ensures { result ≡ memory.size_of width }
{
    match width {
        Width::Word => 2,
        Width::Byte => 1,
    }
}

impl<'a> Layout<'a> {
    /// RAM of whole words.
    fn keeps_ram(&self)
        ensures { HasRam self.now }
    {
        let _ram = self.ram;
    }

    /// An address of the mirror as that of RAM.
    fn canon(&self, at: u16) -> u16
        ensures { result ≡ memory.canon self.now at }
    {
        self.keeps_ram();
        match self.ram.mirror {
            Some((first, last)) if first <= at && at <= last => self.ram.lo + (at - first),
            _ => at,
        }
    }

    /// Where an access is made: bit 0 of a word's address doesn't count.
    pub(crate) fn aligned(&self, width: Width, at: u16) -> u16
        ensures value { result ≡ memory.aligned self.now width at }
        ensures room { result + memory.size_of width ≤ 65536 }
    {
        self.keeps_ram();
        place_laws();
        match width {
            Width::Word => self.canon(even(at)),
            Width::Byte => self.canon(at),
        }
    }

    fn is_ram(&self, at: u16) -> bool
        ensures { result ≡ memory.is_ram self.now at }
    {
        self.ram.lo <= at && at <= self.ram.hi
    }

    fn is_program(&self, at: u16) -> bool
        ensures { result ≡ memory.is_program self.now at }
    {
        self.image.byte(at).is_some()
    }
}

/// A byte of RAM or of the program, or else any.
#[tactic(auto, unfolding(msp430_chip::specs::Memory::read_byte))]
pub(crate) fn read_byte(layout: &Layout, ram: &Ram, at: u16, choices: &mut Unused) -> Option<u16>
    requires { length ram.now ≡ state.ram_size layout.now }
    ensures exact { asked result choices.new ≡ memory.read_byte layout.now ram.now at choices.old }
    ensures below { IfSome result (λ value. value < 256) }
{
    if layout.is_ram(at) {
        return Some(ram.byte((at - layout.ram.lo) as usize) as u16);
    }
    match layout.image.byte(at) {
        Some(byte) => Some(byte as u16),
        None => Some(choices.ask(256)? as u16),
    }
}

/// A word.
#[tactic(auto, unfolding(msp430_chip::specs::Memory::read_word))]
pub(crate) fn read_word(layout: &Layout, ram: &Ram, at: u16, choices: &mut Unused) -> Option<u16>
    requires { length ram.now ≡ state.ram_size layout.now }
    ensures exact { asked result choices.new ≡ memory.read_word layout.now ram.now at choices.old }
{
    let first = layout.aligned(Width::Word, at);
    let low = read_byte(layout, ram, first, choices)?;
    let high = read_byte(layout, ram, first + 1, choices)?;
    Some(low + 256 * high)
}

/// A byte or a word.
pub(crate) fn read(
    layout: &Layout,
    ram: &Ram,
    width: Width,
    at: u16,
    choices: &mut Unused,
) -> Option<u16>
    requires { length ram.now ≡ state.ram_size layout.now }
    ensures exact { asked result choices.new ≡ memory.read layout.now ram.now width at choices.old }
    ensures below { IfSome result (λ value. value < modulus width) }
{
    match width {
        Width::Word => read_word(layout, ram, at, choices),
        Width::Byte => read_byte(layout, ram, layout.aligned(width, at), choices),
    }
}

#[tactic(auto, unfolding(msp430_chip::specs::Memory::with_byte))]
fn store_byte(layout: &Layout, ram: &mut Ram, at: u16, byte: u8)
    requires { length ram.old ≡ state.ram_size layout.now }
    ensures stored { ram.new ≡ memory.with_byte layout.now ram.old at byte }
    ensures length { length ram.new ≡ length ram.old }
{
    if layout.is_ram(at) {
        ram.set((at - layout.ram.lo) as usize, byte);
    }
}

/// Stores a value in RAM. What isn't RAM holds nothing.
pub(crate) fn store(layout: &Layout, ram: &mut Ram, width: Width, at: u16, value: u16)
    requires size { length ram.old ≡ state.ram_size layout.now }
    requires below { value < modulus width }
    ensures stored { ram.new ≡ memory.with_stored layout.now ram.old width at value }
    ensures length { length ram.new ≡ length ram.old }
{
    let first = layout.aligned(width, at);
    match width {
        Width::Word => {
            store_byte(layout, ram, first, (value % 256) as u8);
            store_byte(layout, ram, first + 1, (value / 256) as u8);
        }
        Width::Byte => store_byte(layout, ram, first, value as u8),
    }
}

/// The lowest byte of the program that a store would write.
#[tactic(auto, unfolding(msp430_chip::specs::Memory::hit_at))]
pub(crate) fn program_hit(layout: &Layout, width: Width, at: u16) -> Option<u16>
    ensures { result ≡ memory.program_hit layout.now width at }
{
    let first = layout.aligned(width, at);
    if layout.is_program(first) {
        return Some(first);
    }
    match width {
        Width::Word if layout.is_program(first.wrapping_add(1)) => Some(first + 1),
        _ => None,
    }
}
