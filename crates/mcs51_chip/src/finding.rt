//! Where direct bytes, bits and registers stand.

ghost use Rattle.std.specs.Prelude.{◌≡◌};
ghost use Rattle.mcs51_chip.specs.Memory as memories;
ghost use Rattle.mcs51_chip.specs.Registers as registers;

use crate::place::{Address, Sfr};

/// Where a direct byte stands: below 80h in RAM, else in a register.
pub fn direct_address(direct: u8) -> Address
    ensures { result ≡ memories.direct_address direct }
{
    if direct < 128 {
        Address::InRam(direct)
    } else {
        Address::InSfr(direct)
    }
}

/// Where the byte of a bit stands: below 80h in the bytes 20h to 2Fh of RAM, else in a register.
pub fn bit_address(bit: u8) -> Address
    ensures { result ≡ memories.bit_address bit }
{
    if bit < 128 {
        Address::InRam(32 + bit / 8)
    } else {
        Address::InSfr(bit / 8 * 8)
    }
}

/// The register at an address from 80h to FFh.
pub fn sfr_at(at: u8) -> Sfr
    ensures { result ≡ registers.sfr_at at }
{
    match at {
        0x81 => Sfr::Sp,
        0x82 => Sfr::Dpl,
        0x83 => Sfr::Dph,
        0xA8 => Sfr::Ie,
        0xB8 => Sfr::Ip,
        0xD0 => Sfr::Psw,
        0xE0 => Sfr::Acc,
        0xF0 => Sfr::B,
        _ => Sfr::Other,
    }
}
