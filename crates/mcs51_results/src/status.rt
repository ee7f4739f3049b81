//! PSW as a byte, and its bits.

ghost use Rattle.std.specs.Prelude.{◌≡◌, ◌<◌, slice_index_or};
ghost use Rattle.value_bits.specs.declared.tri.Tri.TheVariants.{Either};
ghost use Rattle.value_bits.specs.Bits as known;
ghost use Rattle.mcs51_results.specs.Results as results;
ghost use Rattle.mcs51_results.specs.StatusBytes as status;

use crate::made::Operand;
use crate::results::{bit_in, carried, carry_in, masked_entry, set_of};
use entry_value::Entry;
use mcs51_decode::{CarryByBit, CarryOperation, Logic};
use mcs51_state::{Status, own_entry};
use value_bits::{Tri, w8};
use value_set::Vs8;

/// Where PSW stands among the places that values remember.
const PSW_PLACE: u16 = 0x1D0;

/// What is known of the bits that PSW is read with. P may be any, and bit 1 isn't held.
pub(crate) fn all_bits(psw: &Status) -> [Tri; 8]
    ensures { result ≡ status.all_bits psw.now }
{
    [
        Tri::Either,
        Tri::Either,
        bit_in(psw, 0),
        bit_in(psw, 1),
        bit_in(psw, 2),
        bit_in(psw, 3),
        bit_in(psw, 4),
        bit_in(psw, 5),
    ]
}

/// The bit of a byte at a place.
pub(crate) fn bit_at(bits: &[Tri; 8], place: usize) -> Tri
    requires { place < 8 }
    ensures { result ≡ slice_index_or bits.now place Either }
{
    bits[place]
}

/// The bits 2 to 7 of a byte.
pub(crate) fn upper(bits: &[Tri; 8]) -> [Tri; 6]
    ensures { result ≡ status.upper bits.now }
{
    [
        bit_at(bits, 2),
        bit_at(bits, 3),
        bit_at(bits, 4),
        bit_at(bits, 5),
        bit_at(bits, 6),
        bit_at(bits, 7),
    ]
}

/// The relation of a byte that is written to PSW.
pub(crate) fn written_entry(entry: Option<Entry>) -> Option<Entry>
    ensures { result ≡ status.written_entry entry }
{
    own_entry(PSW_PLACE, 3, entry)
}

/// A bit is the other one.
pub(crate) fn opposite(bit: Tri) -> Tri
    ensures { result ≡ known.tri_not bit }
{
    match bit {
        Tri::Zero => Tri::One,
        Tri::One => Tri::Zero,
        Tri::Either => Tri::Either,
    }
}

/// AND of bits: a 0 decides it.
fn both(a: Tri, b: Tri) -> Tri
    ensures { result ≡ known.tri_and a b }
{
    match (a, b) {
        (Tri::Zero, _) | (_, Tri::Zero) => Tri::Zero,
        (Tri::One, Tri::One) => Tri::One,
        _ => Tri::Either,
    }
}

/// OR of bits: a 1 decides it.
fn some(a: Tri, b: Tri) -> Tri
    ensures { result ≡ known.tri_or a b }
{
    match (a, b) {
        (Tri::One, _) | (_, Tri::One) => Tri::One,
        (Tri::Zero, Tri::Zero) => Tri::Zero,
        _ => Tri::Either,
    }
}

/// Exclusive OR of bits.
fn either(a: Tri, b: Tri) -> Tri
    ensures { result ≡ known.tri_xor a b }
{
    match a {
        Tri::Zero => b,
        Tri::One => opposite(b),
        Tri::Either => Tri::Either,
    }
}

fn masked_bit(operation: Logic, a: Tri, b: Tri) -> Tri
    ensures { result ≡ known.tri_logic (results.bitwise operation) a b }
{
    match operation {
        Logic::Orl => some(a, b),
        Logic::Anl => both(a, b),
        Logic::Xrl => either(a, b),
    }
}

/// PSW behind ORL, ANL or XRL with an operand, bit by bit.
pub fn masked_status(operation: Logic, psw: &Status, operand: &Operand) -> Status
    ensures { result ≡ status.masked_status operation psw.now operand.now }
{
    let mask = w8::bits(&set_of(operand));
    Status {
        bits: [
            masked_bit(operation, bit_in(psw, 0), bit_at(&mask, 2)),
            masked_bit(operation, bit_in(psw, 1), bit_at(&mask, 3)),
            masked_bit(operation, bit_in(psw, 2), bit_at(&mask, 4)),
            masked_bit(operation, bit_in(psw, 3), bit_at(&mask, 5)),
            masked_bit(operation, bit_in(psw, 4), bit_at(&mask, 6)),
            masked_bit(operation, bit_in(psw, 5), bit_at(&mask, 7)),
        ],
        entry: written_entry(masked_entry(operation, operand, psw.entry)),
    }
}

/// PSW behind CPL, CLR or SETB of CY.
pub fn carry_made(operation: CarryOperation, psw: &Status) -> Status
    ensures { result ≡ status.carry_made operation psw.now }
{
    let carry = match operation {
        CarryOperation::Cpl => opposite(carry_in(psw)),
        CarryOperation::Clr => Tri::Zero,
        CarryOperation::Setb => Tri::One,
    };
    carried(carry, psw)
}

/// PSW behind an operation of CY with a bit.
pub fn carry_bit_made(operation: CarryByBit, bit: Tri, psw: &Status) -> Status
    ensures { result ≡ status.carry_bit_made operation bit psw.now }
{
    let held = carry_in(psw);
    let carry = match operation {
        CarryByBit::Orl => some(held, bit),
        CarryByBit::Anl => both(held, bit),
        CarryByBit::OrlComplement => some(held, opposite(bit)),
        CarryByBit::AnlComplement => both(held, opposite(bit)),
        CarryByBit::Mov => bit,
    };
    carried(carry, psw)
}
