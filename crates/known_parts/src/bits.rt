//! What is known of bits.

ghost use Rattle.std.specs.Prelude.{◌≡◌};
ghost use Rattle.entry_value.specs.Words.{is_entry_within};
ghost use Rattle.value_bits.specs.Pointwise.{each_with, each_passes};
ghost use Rattle.known_parts.specs.Bits as bits;

use entry_value::Entry;
use value_bits::Tri;

/// What is known in both.
pub fn common_bit(a: Tri, b: Tri) -> Tri
    ensures { result ≡ bits.common_bit a b }
{
    match (a, b) {
        (Tri::Zero, Tri::Zero) => Tri::Zero,
        (Tri::One, Tri::One) => Tri::One,
        _ => Tri::Either,
    }
}

/// Whether the first knows what the second knows.
pub fn is_bit_within(new: Tri, held: Tri) -> bool
    ensures { result ≡ bits.is_bit_within new held }
{
    match (new, held) {
        (_, Tri::Either) => true,
        (Tri::Zero, Tri::Zero) => true,
        (Tri::One, Tri::One) => true,
        _ => false,
    }
}

/// What is known in both lists.
pub fn common_bits<const N: usize>(held: &[Tri; N], new: &[Tri; N]) -> [Tri; N]
    ensures { result ≡ each_with bits.common_bit held.now new.now }
{
    let mut common = *held;
    for i in 0..N {
        common[i] = common_bit(held[i], new[i]);
    }
    common
}

/// Whether each bit is within the other list's.
pub fn are_bits_within<const N: usize>(new: &[Tri; N], held: &[Tri; N]) -> bool
    ensures { result ≡ each_passes bits.is_bit_within new.now held.now }
{
    for i in 0..N {
        if !is_bit_within(new[i], held[i]) {
            return false;
        }
    }
    true
}

/// Whether the second has no relation that the first one lacks.
pub fn is_relation_within(new: &Option<Entry>, held: &Option<Entry>) -> bool
    ensures { result ≡ is_entry_within new.now held.now }
{
    held.is_none() || new == held
}
