//! RAM and the stack.

ghost use Rattle.std.specs.Prelude.{◌≡◌, ◌<◌, ◌≤◌, length};
ghost use Rattle.choosing.specs.Choosing.{asked};
ghost use Rattle.image.specs.Image.{byte_at};
ghost use Rattle.mcs51_chip.specs.Memory as memories;
ghost use Rattle.mcs51_chip.specs.State.{IsChipState};
ghost use Rattle.mcs51_emu.specs.Form.{unheld};

use crate::registers::{read_sfr, register_address, write_sfr};
use choosing::Unused;
use mcs51_chip::{Address, ChipState, direct_address, sfr_at};
use mcs51_decode::{Image, Memory, Pointer, Working, number_of_pointer, number_of_register};

/// Where R0 or R1 stands.
pub(crate) fn pointer_address(s: &ChipState, pointer: Pointer) -> u8
    ensures { result ≡ memories.pointer_address s.now pointer }
{
    register_address(s, number_of_pointer(pointer))
}

/// What R0 or R1 points to.
pub(crate) fn pointed_by(s: &ChipState, pointer: Pointer) -> u8
    ensures { result ≡ memories.pointed_by s.now pointer }
{
    s.ram[pointer_address(s, pointer) as usize]
}

/// Where `@Ri` or Rn stands.
pub(crate) fn working_address(s: &ChipState, working: Working) -> Address
    ensures { result ≡ memories.working_address s.now working }
{
    match working {
        Working::Indirect(pointer) => Address::InRam(pointed_by(s, pointer)),
        Working::Register(register) => Address::InRam(register_address(
            s,
            number_of_register(register),
        )),
    }
}

/// Where an operand stands.
pub(crate) fn address_of(s: &ChipState, memory: Memory) -> Address
    ensures { result ≡ memories.address_of s.now memory }
{
    match memory {
        Memory::Direct(direct) => direct_address(direct),
        Memory::Working(working) => working_address(s, working),
    }
}

/// Reads a byte.
#[tactic(auto, unfolding(mcs51_chip::specs::Memory::read))]
pub(crate) fn read(s: &ChipState, address: Address, choices: &mut Unused) -> Option<u8>
    requires { IsChipState s.now }
    ensures { asked result choices.new ≡ memories.read s.now address choices.old }
{
    match address {
        Address::InRam(at) => Some(s.ram[at as usize]),
        Address::InSfr(at) => read_sfr(s, sfr_at(at), choices),
    }
}

/// Writes a byte.
#[tactic(auto, unfolding(mcs51_chip::specs::Memory::write))]
pub(crate) fn write(s: &mut ChipState, address: Address, x: u8)
    ensures value { s.new ≡ memories.write address x s.old }
    ensures unheld { unheld s.new ≤ unheld s.old }
{
    match address {
        Address::InRam(at) => s.ram[at as usize] = x,
        Address::InSfr(at) => write_sfr(s, sfr_at(at), x),
    }
}

/// A byte of the program, or any where the image has none.
#[tactic(auto, unfolding(mcs51_chip::specs::Memory::read_code))]
pub(crate) fn read_code(image: &Image, at: u16, choices: &mut Unused) -> Option<u8>
    ensures { asked result choices.new ≡ memories.read_code (byte_at image.now at) choices.old }
{
    match image.byte(at) {
        Some(byte) => Some(byte),
        None => Some(choices.ask(256)? as u8),
    }
}

/// Pushes a byte.
pub(crate) fn push_byte(s: &mut ChipState, byte: u8)
    ensures value { s.new ≡ memories.pushed byte s.old }
    ensures unheld { unheld s.new ≤ unheld s.old }
{
    s.sp = s.sp.wrapping_add(1);
    s.ram[s.sp as usize] = byte;
}

/// The byte on top of the stack.
pub(crate) fn top_of(s: &ChipState) -> u8
    ensures { result ≡ memories.top_of s.now }
{
    s.ram[s.sp as usize]
}

/// Lowers SP.
pub(crate) fn pop_byte(s: &mut ChipState)
    ensures value { s.new ≡ memories.popped s.old }
    ensures unheld { unheld s.new ≤ unheld s.old }
{
    s.sp = s.sp.wrapping_sub(1);
}

/// Pushes a program address, its low byte first.
pub(crate) fn push_address(s: &mut ChipState, address: u16)
    ensures value { s.new ≡ memories.with_pushed_address address s.old }
    ensures unheld { unheld s.new ≤ unheld s.old }
{
    push_byte(s, (address % 256) as u8);
    push_byte(s, (address / 256) as u8);
}

/// Pops a program address, its high byte first.
pub(crate) fn pop_address(s: &mut ChipState) -> u16
    ensures value { result ≡ memories.popped_address s.old }
    ensures popped { s.new ≡ memories.popped (memories.popped s.old) }
    ensures unheld { unheld s.new ≤ unheld s.old }
{
    let high = top_of(s);
    pop_byte(s);
    let low = top_of(s);
    pop_byte(s);
    256 * high as u16 + low as u16
}
