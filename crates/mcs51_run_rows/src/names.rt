//! What stands in a state, by the names of a row.

ghost use Rattle.mcs51_chip.specs.State.{IsChipState};

use crate::numbers::number_of;
use mcs51_chip::{ChipState, Sfr};
use mcs51_emu::{has_form, write_sfr};

/// The register of a name; others are bytes of RAM.
fn sfr_named(name: &str) -> Option<Sfr> {
    match name {
        "A" => Some(Sfr::Acc),
        "B" => Some(Sfr::B),
        "SP" => Some(Sfr::Sp),
        "DPL" => Some(Sfr::Dpl),
        "DPH" => Some(Sfr::Dph),
        "PSW" => Some(Sfr::Psw),
        "IE" => Some(Sfr::Ie),
        "IP" => Some(Sfr::Ip),
        _ => None,
    }
}

/// What a register holds.
fn held(s: &ChipState, sfr: Sfr) -> u8 {
    match sfr {
        Sfr::Sp => s.sp,
        Sfr::Dpl => s.dpl,
        Sfr::Dph => s.dph,
        Sfr::Ie => s.ie,
        Sfr::Ip => s.ip,
        Sfr::Psw => s.psw,
        Sfr::Acc => s.a,
        Sfr::B => s.b,
        Sfr::Other => 0,
    }
}

/// What stands under a name.
pub fn value_of(s: &ChipState, name: &str) -> Option<u16> {
    match name {
        "PC" => Some(s.pc),
        "L" => Some(s.serves_low as u16),
        "H" => Some(s.serves_high as u16),
        _ => match sfr_named(name) {
            Some(sfr) => Some(held(s, sfr) as u16),
            None => Some(s.ram[number_of(name)? as usize % 256] as u16),
        },
    }
}

/// Sets what stands under a name.
pub fn set(s: &mut ChipState, name: &str, value: u16)
    requires { IsChipState s.old }
    ensures { IsChipState s.new }
{
    match name {
        "PC" => s.pc = value,
        "L" => s.serves_low = value == 1,
        "H" => s.serves_high = value == 1,
        _ => match (sfr_named(name), number_of(name)) {
            (Some(sfr), _) => write_sfr(s, sfr, (value % 256) as u8),
            (None, Some(at)) => s.ram[at as usize % 256] = (value % 256) as u8,
            (None, None) => {}
        },
    }
    has_form(s);
}
