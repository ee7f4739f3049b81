//! Reads of RAM and of the registers.

ghost use Rattle.std.specs.Prelude.{◌≡◌, ◌<◌, drop, length, slice_index_or};
ghost use Rattle.value_bits.specs.Bits.{from_bits, known_bit};
ghost use Rattle.value_bits.specs.declared.tri.Tri.TheVariants.{Either};
ghost use Rattle.value_set.specs.Form.{members};
ghost use Rattle.mcs51_state.specs.Known.{any_byte};
ghost use Rattle.mcs51_state.specs.Joined.{all_joined};
ghost use Rattle.mcs51_state.specs.Reading as reading;

use crate::addresses::Addresses;
use crate::bytes::plain;
use crate::state::State;
use crate::status::Status;
use entry_value::{Byte, Cells, Entry};
use irq_frames::Ranges;
use mcs51_chip::{Sfr, sfr_at};
use value_bits::{Tri, w8, w16};
use value_set::Vs8;

/// The numbers of the byte of RAM at an address.
fn ram_set<M: Cells>(state: &State<M>, at: u8) -> Vs8
    ensures { result ≡ reading.ram_set state.now at }
{
    w16::low(&state.cells.read(at as u16, 1).set)
}

/// The sets that are read from the second address on, joined with the first one.
fn joined<M: Cells>(state: &State<M>, at: &Vs8, count: u32, first: Vs8) -> Vs8
    requires { count ≡ length (members 256 at.now) }
    ensures { result ≡ all_joined (reading.ram_set state.now) first (drop 1 (members 256 at.now)) }
{
    let mut set = first;
    for place in 1..count {
        set = set.join(&ram_set(state, at.nth(place)));
    }
    set
}

/// What a byte of RAM may be at an address of a set.
#[tactic(auto, unfolding(crate::specs::Reading::ram_values), using(crate::specs::JoinedFacts::any_is))]
pub fn ram_values<M: Cells>(state: &State<M>, at: &Vs8) -> Vs8
    ensures { result ≡ reading.ram_values state.now at.now }
{
    let count = at.count();
    joined(state, at, count, ram_set(state, at.nth(0)))
}

/// In an interrupt's frame a byte that isn't touched is what it was when the interrupt came.
fn kept_relation(framed: bool, touched: &Ranges, at: u8) -> Option<Entry>
    ensures { result ≡ reading.kept_by framed touched.now at }
{
    if framed && !touched.has(at as u16) {
        return Some(Entry {
            place: at as u16,
            and: 0xFF,
            or: 0,
        });
    }
    None
}

/// How the byte of RAM at an address came from what a place held when the interrupt came.
fn ram_relation<M: Cells>(framed: bool, state: &State<M>, at: u8) -> Option<Entry>
    ensures { result ≡ reading.ram_relation framed state.now at }
{
    match state.cells.read(at as u16, 1).entry {
        Some(entry) => Some(entry),
        None => kept_relation(framed, &state.touched, at),
    }
}

/// The same at one of some addresses: at several there is no relation.
fn relation_at<M: Cells>(framed: bool, state: &State<M>, at: &Vs8) -> Option<Entry>
    ensures { result ≡ reading.list_relation framed state.now (members 256 at.now) }
{
    if at.count() > 1 {
        return None;
    }
    ram_relation(framed, state, at.nth(0))
}

/// PSW as a byte.
fn status_byte(status: &Status) -> Byte
    ensures { result ≡ reading.status_byte status.now }
{
    let mut bits = [Tri::Either; 8];
    bits[2..].copy_from_slice(&status.bits);
    Byte {
        set: w8::from_bits(&bits),
        entry: status.entry,
    }
}

/// What a register may be read as.
fn register_byte<M: Cells>(state: &State<M>, register: Sfr) -> Byte
    ensures { result ≡ reading.register_byte state.now register }
{
    match register {
        Sfr::Sp => plain(state.sp),
        Sfr::Dpl => state.dpl,
        Sfr::Dph => state.dph,
        Sfr::Ie => state.ie,
        Sfr::Ip => state.ip,
        Sfr::Psw => status_byte(&state.psw),
        Sfr::Acc => state.a,
        Sfr::B => state.b,
        Sfr::Other => plain(Vs8::any()),
    }
}

/// What may be read at one of some addresses, in an interrupt's frame or in none.
#[tactic(auto, unfolding(crate::specs::Reading::read_byte))]
pub fn read_byte<M: Cells>(framed: bool, state: &State<M>, addresses: &Addresses) -> Byte
    ensures { result ≡ reading.read_byte framed state.now addresses.now }
{
    match addresses {
        Addresses::InRam(at) => Byte {
            set: ram_values(state, at),
            entry: relation_at(framed, state, at),
        },
        Addresses::InSfr(register) => register_byte(state, sfr_at(*register)),
    }
}

/// The bit at a place of the numbers of a set.
fn bit_of_set(set: &Vs8, place: u8) -> Tri
    requires { place < 8 }
    ensures { result ≡ known_bit 8 place set.now }
{
    w8::bits(set)[place as usize]
}

/// The bit at a place of PSW.
fn status_bit(bits: &[Tri; 6], place: u8) -> Tri
    requires { place < 8 }
    ensures { result ≡ reading.status_bit bits.now place }
{
    if place < 2 {
        Tri::Either
    } else {
        bits[place as usize - 2]
    }
}

/// The bit at a place of a byte at one of some addresses.
#[tactic(auto, unfolding(crate::specs::Reading::read_bit))]
pub fn read_bit<M: Cells>(state: &State<M>, addresses: &Addresses, place: u8) -> Tri
    requires { place < 8 }
    ensures { result ≡ reading.read_bit state.now addresses.now place }
{
    match addresses {
        Addresses::InRam(at) => bit_of_set(&ram_values(state, at), place),
        Addresses::InSfr(at) => match sfr_at(*at) {
            Sfr::Psw => status_bit(&state.psw.bits, place),
            register => bit_of_set(&register_byte(state, register).set, place),
        },
    }
}

/// Bit 7 of PSW.
fn carry_bit(bits: &[Tri; 6]) -> Tri
    ensures { result ≡ slice_index_or bits.now 5 Either }
{
    bits[5]
}

/// CY.
pub fn carry<M: Cells>(state: &State<M>) -> Tri
    ensures { result ≡ reading.carry state.now }
{
    carry_bit(&state.psw.bits)
}
