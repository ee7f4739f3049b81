//! Writes to registers.

ghost use Rattle.std.specs.Prelude.{◌≡◌, ◌≤◌, ◌<◌, ◌-◌, length};
ghost use Rattle.value_bits.specs.declared.tri.Logic.TheVariants.{And, Or};
ghost use Rattle.value_bits.specs.Sets.{logic_set};
ghost use Rattle.value_set.specs.Form.{gather};
ghost use Rattle.value_set.specs.Summing.{single};
ghost use Rattle.mcs51_state.specs.Writing as writing;

use crate::fact::{CarryFact, Compared};
use crate::flags::set_status;
use crate::state::State;
use crate::status::Status;
use entry_value::{Byte, Cells, Entry};
use mcs51_chip::Sfr;
use value_bits::{Tri, w8};
use value_set::Vs8;

/// A relation of a register to itself: the bits that the register doesn't hold are any. There is none to another place.
pub fn own_entry(place: u16, unheld: u8, entry: Option<Entry>) -> Option<Entry>
    ensures { result ≡ writing.own_entry place unheld entry }
{
    match entry {
        Some(entry) if entry.place == place => Some(Entry {
            place: entry.place,
            and: entry.and | unheld as u16,
            or: entry.or & (65535 - unheld as u16),
        }),
        _ => None,
    }
}

/// The bits of the numbers of a set that a register holds, with each of some numbers of the others.
fn with_others(set: &Vs8, unheld: u8, others: &[u8]) -> Vs8
    requires { 1 ≤ length others.now }
    ensures { result ≡ logic_set 8 Or (logic_set 8 And set.now (single (255 - unheld))) (gather 256 others.now) }
{
    let held = w8::and(set, &Vs8::one(255 - unheld));
    match Vs8::gather(others) {
        Some(others) => w8::or(&held, &others),
        None => unreachable!(),
    }
}

/// What a register that doesn't hold all of its bits may be read as.
fn own_byte(place: u16, unheld: u8, others: &[u8], byte: &Byte) -> Byte
    requires { 1 ≤ length others.now }
    ensures { result ≡ writing.own_byte place unheld others.now byte.now }
{
    Byte {
        set: with_others(&byte.set, unheld, others),
        entry: own_entry(place, unheld, byte.entry),
    }
}

/// PSW behind a write of a byte: it holds the bits 2 to 7.
fn status_of(byte: &Byte) -> Status
    ensures { result ≡ writing.status_of_byte byte.now }
{
    let mut bits = [Tri::Either; 6];
    bits.copy_from_slice(&w8::bits(&byte.set)[2..]);
    Status {
        bits,
        entry: own_entry(0x1D0, 3, byte.entry),
    }
}

/// A fact of CY, unless the compared byte is the accumulator.
fn carry_of_ram(fact: Option<CarryFact>) -> Option<CarryFact>
    ensures { result ≡ writing.carry_unless writing.is_accumulator fact }
{
    match fact {
        Some(
            CarryFact {
                compared: Compared::Ram(at),
                bound,
            },
        ) => Some(CarryFact {
            compared: Compared::Ram(at),
            bound,
        }),
        _ => None,
    }
}

/// Writes the accumulator. Facts that name it go.
pub fn set_accumulator<M: Cells>(state: &mut State<M>, byte: &Byte)
    ensures { state.new ≡ writing.accumulator_written byte.now state.old }
{
    state.a = *byte;
    state.linear_fact = None;
    state.carry_fact = carry_of_ram(state.carry_fact);
}

/// Writes a register.
#[tactic(auto, unfolding(crate::specs::Writing::register_written))]
pub(crate) fn write_register<M: Cells>(state: &mut State<M>, register: Sfr, byte: &Byte)
    ensures { state.new ≡ writing.register_written register byte.now state.old }
{
    match register {
        Sfr::Sp => state.sp = byte.set,
        Sfr::Dpl => state.dpl = *byte,
        Sfr::Dph => state.dph = *byte,
        Sfr::Ie => state.ie = own_byte(0x1A8, 0x40, &[0, 0x40], byte),
        Sfr::Ip => state.ip = own_byte(0x1B8, 0xC0, &[0, 0x40, 0x80, 0xC0], byte),
        Sfr::Psw => set_status(state, status_of(byte)),
        Sfr::Acc => set_accumulator(state, byte),
        Sfr::B => state.b = *byte,
        Sfr::Other => {}
    }
}
