//! The registers.

ghost use Rattle.std.specs.Prelude.{◌≡◌, ◌<◌, ◌≤◌, IfSome};
ghost use Rattle.choosing.specs.Choosing.{asked};
ghost use Rattle.mcs51_chip.specs.Registers as registers;
ghost use Rattle.mcs51_chip.specs.State.{IsChipState};
ghost use Rattle.mcs51_emu.specs.Form.{unheld};

use crate::bits::parity;
use choosing::Unused;
use mcs51_chip::{ChipState, Sfr};

/// CY.
pub(crate) fn carry_of(s: &ChipState) -> u8
    ensures value { result ≡ registers.carry_of s.now }
    ensures below { result ≤ 1 }
{
    s.psw / 128 % 2
}

/// AC.
pub(crate) fn half_carry_of(s: &ChipState) -> u8
    ensures value { result ≡ registers.half_carry_of s.now }
    ensures below { result ≤ 1 }
{
    s.psw / 64 % 2
}

/// Sets CY.
pub(crate) fn set_carry(s: &mut ChipState, carry: u8)
    requires { carry ≤ 1 }
    ensures value { s.new ≡ registers.with_carry carry s.old }
    ensures unheld { unheld s.new ≤ unheld s.old }
{
    s.psw = s.psw % 128 + 128 * carry;
}

/// Sets CY, AC and OV.
pub(crate) fn set_flags(s: &mut ChipState, carry: u8, half: u8, overflow: u8)
    requires carry { carry ≤ 1 }
    requires half { half ≤ 1 }
    requires overflow { overflow ≤ 1 }
    ensures value { s.new ≡ registers.with_flags carry half overflow s.old }
    ensures unheld { unheld s.new ≤ unheld s.old }
{
    s.psw = s.psw / 8 % 8 * 8 + 128 * carry + 64 * half + 4 * overflow;
}

/// Where a register of the selected bank stands in RAM.
pub(crate) fn register_address(s: &ChipState, number: u8) -> u8
    requires { number < 8 }
    ensures value { result ≡ registers.register_address s.now number }
{
    number + 8 * (s.psw / 8 % 4)
}

/// DPTR.
pub(crate) fn data_pointer(s: &ChipState) -> u16
    ensures { result ≡ registers.data_pointer s.now }
{
    s.dpl as u16 + 256 * s.dph as u16
}

/// Sets DPTR.
pub(crate) fn set_data_pointer(s: &mut ChipState, x: u16)
    ensures value { s.new ≡ registers.with_data_pointer x s.old }
    ensures unheld { unheld s.new ≤ unheld s.old }
{
    s.dpl = (x % 256) as u8;
    s.dph = (x / 256) as u8;
}

/// What a register reads as; bits that aren't held are any.
pub(crate) fn read_sfr(s: &ChipState, sfr: Sfr, choices: &mut Unused) -> Option<u8>
    requires { IsChipState s.now }
    ensures { asked result choices.new ≡ registers.read_sfr s.now sfr choices.old }
{
    match sfr {
        Sfr::Sp => Some(s.sp),
        Sfr::Dpl => Some(s.dpl),
        Sfr::Dph => Some(s.dph),
        Sfr::Ie => Some(s.ie + 64 * choices.ask(2)? as u8),
        Sfr::Ip => Some(s.ip + 64 * choices.ask(4)? as u8),
        Sfr::Psw => {
            let bit = choices.ask(2)? as u8;
            Some(s.psw + 2 * bit + parity(s.a))
        }
        Sfr::Acc => Some(s.a),
        Sfr::B => Some(s.b),
        Sfr::Other => Some(choices.ask(256)? as u8),
    }
}

/// Writes a register, which keeps the bits that it holds.
pub fn write_sfr(s: &mut ChipState, sfr: Sfr, x: u8)
    ensures value { s.new ≡ registers.write_sfr sfr x s.old }
    ensures unheld { unheld s.new ≤ unheld s.old }
{
    match sfr {
        Sfr::Sp => s.sp = x,
        Sfr::Dpl => s.dpl = x,
        Sfr::Dph => s.dph = x,
        Sfr::Ie => s.ie = x % 64 + x / 128 * 128,
        Sfr::Ip => s.ip = x % 64,
        Sfr::Psw => s.psw = x / 4 * 4,
        Sfr::Acc => s.a = x,
        Sfr::B => s.b = x,
        Sfr::Other => {}
    }
}
