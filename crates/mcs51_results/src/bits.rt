//! Operations on a bit of a byte.

ghost use Rattle.std.specs.Prelude.{◌≡◌, ◌%◌, ◌<◌, None};
ghost use Rattle.std.specs.Int.{bit_at as number_bit};
ghost use Rattle.mcs51_chip.specs.Arithmetic as arithmetic;
ghost use Rattle.mcs51_chip.specs.Registers as registers;
ghost use Rattle.mcs51_results.specs.StatusBytes as status;

use crate::combining::{chosen, is_few};
use crate::results::carry_in;
use crate::status::{all_bits, bit_at, opposite, upper, written_entry};
use entry_value::{Byte, Entry};
use mcs51_decode::BitOperation;
use mcs51_state::Status;
use value_bits::{Tri, w8};
use value_set::{Operation, Vs8};

/// An operation on the bit at an address.
#[derive(Clone, Copy)]
struct BitChange {
    operation: BitOperation,
    at: u8,
}

impl Operation for BitChange {
    ghost use Rattle.mcs51_results.specs.StatusBytes.{bit_answer};
    ghost use Rattle.mcs51_results.specs.BitRules.{bit_stays};

    ghost modulus = { λ change. 256 };

    ghost answer = { λ change. bit_answer change.operation change.at };

    fn apply(&self, x: u16, _y: u16, carry: u16) -> u16 {
        let place = self.at % 8;
        with_bit(
            x,
            place,
            bit_after(self.operation, carry % 2, bit_in(x, place)),
        )
    }

    ghost stays_below = { λ change. bit_stays change.operation change.at };
}

/// The bit at a place.
fn bit_in(x: u16, place: u8) -> u16
    requires { place < 8 }
    ensures value { result ≡ number_bit x place }
    ensures below { result < 2 }
{
    (x >> place) % 2
}

/// A bit behind an operation.
fn bit_after(operation: BitOperation, carry: u16, bit: u16) -> u16
    requires carry_below { carry < 2 }
    requires bit_below { bit < 2 }
    ensures value { result ≡ arithmetic.bit_after operation carry bit }
    ensures below { result < 2 }
{
    match operation {
        BitOperation::MovCarry => carry,
        BitOperation::Cpl => 1 - bit,
        BitOperation::Clr => 0,
        BitOperation::Setb => 1,
    }
}

/// A byte with a bit at a place.
fn with_bit(x: u16, place: u8, bit: u16) -> u16
    requires below { x < 256 }
    requires place { place < 8 }
    requires bit { bit < 2 }
    ensures { result ≡ registers.with_bit x place bit }
{
    let weight = 1 << place;
    x - bit_in(x, place) * weight + bit * weight
}

/// What is known of a bit behind an operation.
fn bit_made(operation: BitOperation, carry: Tri, bit: Tri) -> Tri
    ensures { result ≡ status.bit_made operation carry bit }
{
    match operation {
        BitOperation::MovCarry => carry,
        BitOperation::Cpl => opposite(bit),
        BitOperation::Clr => Tri::Zero,
        BitOperation::Setb => Tri::One,
    }
}

/// A relation behind an operation: CLR and SETB mask it, and MOV and CPL drop it.
fn bit_entry(operation: BitOperation, place: u8, entry: Option<Entry>) -> Option<Entry>
    requires { place < 8 }
    ensures { result ≡ status.bit_entry operation place entry }
{
    let weight = 1 << place;
    match (operation, entry) {
        (BitOperation::Clr, Some(entry)) => Some(entry.mask_and(255 - weight)),
        (BitOperation::Setb, Some(entry)) => Some(entry.mask_or(weight)),
        _ => None,
    }
}

/// What CY may be, where the operation takes it.
fn bit_carries(operation: BitOperation, carry: Tri) -> Vs8
    ensures { result ≡ status.bit_carries operation carry }
{
    match operation {
        BitOperation::MovCarry => chosen(carry),
        _ => Vs8::one(0),
    }
}

/// The known bits behind an operation on one of them.
fn bits_made(operation: BitOperation, place: usize, carry: Tri, set: &Vs8) -> [Tri; 8]
    requires { place < 8 }
    ensures { result ≡ status.bits_made operation place carry set.now }
{
    let mut bits = w8::bits(set);
    bits[place] = bit_made(operation, carry, bit_at(&bits, place));
    bits
}

/// The set of a byte behind an operation on its bit at an address.
#[tactic(auto, unfolding(value_bits::specs::Sets::combine_or))]
fn set_with_bit(operation: BitOperation, at: u8, carry: Tri, set: &Vs8) -> Vs8
    ensures { result ≡ (status.byte_with_bit operation at carry (record { set = set.now; entry = None })).set }
{
    let none = Vs8::one(0);
    let carries = bit_carries(operation, carry);
    if is_few(set, &none, &carries) {
        return Vs8::combine(&BitChange { operation, at }, set, &none, &carries);
    }
    w8::from_bits(&bits_made(operation, (at % 8) as usize, carry, set))
}

/// A byte behind an operation on its bit at an address, with what is known of CY.
pub fn byte_with_bit(operation: BitOperation, at: u8, carry: Tri, byte: &Byte) -> Byte
    ensures { result ≡ status.byte_with_bit operation at carry byte.now }
{
    Byte {
        set: set_with_bit(operation, at, carry, &byte.set),
        entry: bit_entry(operation, at % 8, byte.entry),
    }
}

/// What is known of the bit of a byte at an address.
pub fn bit_of_byte(at: u8, set: &Vs8) -> Tri
    ensures { result ≡ status.bit_of_set set.now (at % 8) }
{
    bit_at(&w8::bits(set), (at % 8) as usize)
}

/// What is known of the bit of PSW at an address: of P nothing is.
pub fn bit_of_status(at: u8, psw: &Status) -> Tri
    ensures { result ≡ status.bit_of_status psw.now (at % 8) }
{
    bit_at(&all_bits(psw), (at % 8) as usize)
}

/// PSW behind an operation on its bit at an address.
pub fn status_with_bit(operation: BitOperation, at: u8, psw: &Status) -> Status
    ensures { result ≡ status.status_with_bit operation at psw.now }
{
    let place = (at % 8) as usize;
    let mut bits = all_bits(psw);
    bits[place] = bit_made(operation, carry_in(psw), bit_at(&bits, place));
    Status {
        bits: upper(&bits),
        entry: written_entry(bit_entry(operation, at % 8, psw.entry)),
    }
}
