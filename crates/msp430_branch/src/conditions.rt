//! The conditions of jumps, by what is known of SR.

ghost use Rattle.std.specs.Prelude.{◌≡◌, ◌<◌, slice_set};
ghost use Rattle.value_bits.specs.Bits as bit_sets;
ghost use Rattle.msp430_branch.specs.Conditions as conditions;

use msp430_decode::Condition;
use msp430_state::Status;
use value_bits::Tri;

fn not(bit: Tri) -> Tri
    ensures { result ≡ bit_sets.tri_not bit }
{
    match bit {
        Tri::Zero => Tri::One,
        Tri::One => Tri::Zero,
        Tri::Either => Tri::Either,
    }
}

/// Whether two bits differ.
fn xor(a: Tri, b: Tri) -> Tri
    ensures { result ≡ bit_sets.tri_xor a b }
{
    match a {
        Tri::Zero => b,
        Tri::One => not(b),
        Tri::Either => Tri::Either,
    }
}

/// Whether N and V differ.
fn less_by(bits: &[Tri; 9]) -> Tri
    ensures { result ≡ conditions.less_by bits.now }
{
    xor(bits[2], bits[8])
}

/// Whether a jump is taken, where the known bits of SR say so.
pub fn taken_by(condition: Condition, status: &Status) -> Tri
    ensures { result ≡ conditions.taken_by condition status.now.bits }
{
    match condition {
        Condition::NotEqual => not(status.bits[1]),
        Condition::Equal => status.bits[1],
        Condition::NoCarry => not(status.bits[0]),
        Condition::Carry => status.bits[0],
        Condition::Negative => status.bits[2],
        Condition::GreaterOrEqual => not(less_by(&status.bits)),
        Condition::Less => less_by(&status.bits),
        Condition::Always => Tri::One,
    }
}

/// Whether what is known of a bit allows a value.
pub(crate) fn may_be(known: Tri, flag: bool) -> bool
    ensures { result ≡ bit_sets.may_be known flag }
{
    match known {
        Tri::Zero => !flag,
        Tri::One => flag,
        Tri::Either => true,
    }
}

fn known_flag(flag: bool) -> Tri
    ensures { result ≡ bit_sets.known_flag flag }
{
    if flag { Tri::One } else { Tri::Zero }
}

/// A bit, by another source where it isn't known.
fn known_or(bit: Tri, other: Tri) -> Tri
    ensures { result ≡ conditions.known_or bit other }
{
    match bit {
        Tri::Either => other,
        _ => bit,
    }
}

/// N and V, where it is known whether they differ: each shows the other.
fn with_less(bits: &[Tri; 9], less: Tri) -> [Tri; 9]
    ensures { result ≡ conditions.with_less bits.now less }
{
    let mut all = *bits;
    all[2] = known_or(bits[2], xor(bits[8], less));
    all[8] = known_or(bits[8], xor(bits[2], less));
    all
}

/// Bits of which one is known.
fn with_flag(bits: &[Tri; 9], place: usize, flag: bool) -> [Tri; 9]
    requires { place < 9 }
    ensures { result ≡ slice_set bits.now place (bit_sets.known_flag flag) }
{
    let mut all = *bits;
    all[place] = known_flag(flag);
    all
}

/// The bits of SR where a jump is taken, or isn't.
pub(crate) fn bits_where(condition: Condition, taken: bool, bits: &[Tri; 9]) -> [Tri; 9]
    ensures { result ≡ conditions.bits_where condition taken bits.now }
{
    match condition {
        Condition::NotEqual => with_flag(bits, 1, !taken),
        Condition::Equal => with_flag(bits, 1, taken),
        Condition::NoCarry => with_flag(bits, 0, !taken),
        Condition::Carry => with_flag(bits, 0, taken),
        Condition::Negative => with_flag(bits, 2, taken),
        Condition::GreaterOrEqual => with_less(bits, known_flag(!taken)),
        Condition::Less => with_less(bits, known_flag(taken)),
        Condition::Always => *bits,
    }
}
