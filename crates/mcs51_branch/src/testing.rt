//! Bits that a jump tests.

ghost use Rattle.std.specs.Prelude.{◌≡◌, ◌<◌, ◌≤◌, ◌^◌, ◌-◌, if◌then◌else◌, false, None, Some, ℕ, All, OnErr, OnOk, length};
ghost use Rattle.std.specs.Int as numbers;
ghost use Rattle.std.specs.List.{filter};
ghost use Rattle.mcs51_chip.specs.declared.place.Address.TheVariants.{InRam};
ghost use Rattle.mcs51_branch.specs.Testing as testing;
ghost use Rattle.mcs51_branch.specs.Ways.{Goes, IsWay};

use crate::carry::{known_flag, may_be};
use crate::places::{put, set_at};
use arrayvec::ArrayVec;
use entry_value::{Byte, Cells};
use mcs51_chip::{Address, Sfr, sfr_at};
use mcs51_state::{Compared, State};
use no_memory::Memory;
use value_bits::w8;
use value_set::{Form, Vs8, members_are_below};

/// Whether a byte has a bit so.
fn has_bit(place: u8, bit: bool, byte: u8) -> bool
    requires { place < 8 }
    ensures { result ≡ testing.has_bit place bit byte }
{
    let held = (byte >> place) % 2;
    if bit { held == 1 } else { held == 0 }
}

/// The numbers of a list that have a bit so.
fn with_bit(values: &[u16], place: u8, bit: bool) -> ArrayVec<u8, 16>
    requires place { place < 8 }
    requires few { length values.now ≤ 16 }
    requires bytes { All (λ v. v < 256) values.now }
    ensures { result.items ≡ filter (testing.has_bit place bit) values.now }
{
    let mut kept = ArrayVec::new();
    for value in values {
        let byte = *value as u8;
        if has_bit(place, bit, byte) {
            kept.push(byte);
        }
    }
    kept
}

/// The set of some numbers, if there are any.
fn gathered(numbers: &[u8]) -> Option<Vs8>
    ensures { result ≡ testing.gathered numbers.now }
{
    Vs8::gather(numbers)
}

/// The numbers of a set where a bit is so, if that can be.
#[tactic(auto, unfolding(crate::specs::Testing::tested))]
pub(crate) fn tested(set: &Vs8, place: u8, bit: bool) -> Option<Vs8>
    requires { place < 8 }
    ensures { result ≡ testing.tested place bit set.now }
{
    members_are_below();
    match set.form() {
        Form::Values(values) => gathered(with_bit(values.as_slice(), place, bit).as_slice()),
        Form::Run(_) if may_be(w8::bits(set)[place as usize], bit) => Some(*set),
        Form::Run(_) => None,
    }
}

/// Sees a bit of PSW, where it is held.
#[tactic(auto, unfolding(crate::specs::Testing::status_tested))]
fn test_status<M: Cells>(state: &mut State<M>, place: u8, bit: bool) -> bool
    requires { place < 8 }
    ensures { Goes (testing.status_tested place bit state.old) result state.old state.new }
{
    if place < 2 {
        return true;
    }
    let held = place as usize - 2;
    if !may_be(state.psw.bits[held], bit) {
        return false;
    }
    state.psw.bits[held] = known_flag(bit);
    true
}

/// Keeps the numbers of a byte where a bit is so, if that can be.
#[tactic(auto, unfolding(crate::specs::Testing::byte_tested))]
fn test_byte(byte: &mut Byte, place: u8, bit: bool) -> bool
    requires { place < 8 }
    ensures value { testing.byte_tested place bit byte.old ≡ (if result then Some byte.new else None) }
    ensures kept { result ≡ false → byte.new ≡ byte.old }
{
    match tested(&byte.set, place, bit) {
        Some(set) => {
            byte.set = set;
            true
        }
        None => false,
    }
}

/// Sees a bit of a register, where it is held.
#[tactic(auto, unfolding(crate::specs::Testing::register_tested))]
fn test_register<M: Cells>(state: &mut State<M>, sfr: Sfr, place: u8, bit: bool) -> bool
    requires { place < 8 }
    ensures { Goes (testing.register_tested sfr place bit state.old) result state.old state.new }
{
    match sfr {
        Sfr::Acc => test_byte(&mut state.a, place, bit),
        Sfr::B => test_byte(&mut state.b, place, bit),
        Sfr::Psw => test_status(state, place, bit),
        Sfr::Ie => place == 6 || test_byte(&mut state.ie, place, bit),
        Sfr::Ip => place > 5 || test_byte(&mut state.ip, place, bit),
        _ => true,
    }
}

/// Gives a byte of RAM what is left of its numbers. A test leaves a run whole, and its cell stays as it is.
fn keep_left<M: Cells>(state: &mut State<M>, at: u8, whole: &Vs8, left: Vs8) -> Result<(), Memory>
    ensures value { OnOk result (state.new ≡ testing.with_left whole.now at state.old left) }
    ensures kept { OnErr result (state.new ≡ state.old) }
{
    match whole.form() {
        Form::Values(_) => put(state, Compared::Ram(at), left),
        Form::Run(_) => Ok(()),
    }
}

/// Keeps the numbers of a byte of RAM where a bit is so, if that can be.
#[tactic(auto, unfolding(crate::specs::Testing::bit_tested))]
fn test_ram<M: Cells>(state: &mut State<M>, at: u8, place: u8, bit: bool) -> Result<bool, Memory>
    requires { place < 8 }
    ensures { IsWay (testing.bit_tested (InRam at) place bit state.old) result state.old state.new }
{
    let whole = set_at(state, Compared::Ram(at));
    match tested(&whole, place, bit) {
        Some(left) => {
            keep_left(state, at, &whole, left)?;
            Ok(true)
        }
        None => Ok(false),
    }
}

/// Makes of what is known in front of JB, JNB or JBC what is known where the bit at a place of a byte is set, or is clear.
/// Where that can't be, answers `false`. Then, and where memory lacks, all is as it was.
#[tactic(auto, unfolding(crate::specs::Testing::bit_tested))]
pub fn cut_by_bit<M: Cells>(
    state: &mut State<M>,
    address: Address,
    place: u8,
    bit: bool,
) -> Result<bool, Memory>
    requires { place < 8 }
    ensures { IsWay (testing.bit_tested address place bit state.old) result state.old state.new }
{
    match address {
        Address::InRam(at) => test_ram(state, at, place, bit),
        Address::InSfr(at) => Ok(test_register(state, sfr_at(at), place, bit)),
    }
}
