//! A status that goes on: its bits and its relation behind the masks of a relation.

ghost use Rattle.std.specs.Prelude.{◌≡◌};
ghost use Rattle.irq_frames.specs.Masking as masking;
ghost use Rattle.irq_frames.specs.Resuming as resuming;

use entry_value::Entry;
use value_bits::Tri;

/// A bit behind the lowest bits of an AND mask and an OR mask.
fn masked_bit(and: u16, or: u16, bit: Tri) -> Tri
    ensures { result ≡ masking.masked_bit and or bit }
{
    if or % 2 == 1 {
        Tri::One
    } else if and % 2 == 1 {
        bit
    } else {
        Tri::Zero
    }
}

/// Bits behind an AND and an OR, from the lowest one on.
pub fn masked_bits<const N: usize>(and: u16, or: u16, held: &[Tri; N]) -> [Tri; N]
    ensures { result ≡ masking.masked_bits and or held.now }
{
    let mut bits = *held;
    let mut and_left = and;
    let mut or_left = or;
    for i in 0..N {
        bits[i] = masked_bit(and_left, or_left, held[i]);
        and_left /= 2;
        or_left /= 2;
    }
    bits
}

/// The relation of what a place held, behind the masks of a relation.
pub fn masked_entry(held: &Option<Entry>, entry: &Entry) -> Option<Entry>
    ensures { result ≡ masking.masked_entry entry.now held.now }
{
    match held {
        Some(one) => Some(one.mask_and(entry.and).mask_or(entry.or)),
        None => None,
    }
}

/// Whether a relation keeps each bit of a number, of which the last one has all.
pub fn is_unmasked(last: u16, entry: &Entry) -> bool
    ensures { result ≡ resuming.is_unmasked last entry.now }
{
    entry.and == last && entry.or == 0
}

/// Whether a value is what a place held, without a mask.
pub fn is_itself(last: u16, place: u16, entry: &Option<Entry>) -> bool
    ensures { result ≡ resuming.is_itself last place entry.now }
{
    match entry {
        Some(entry) => entry.place == place && is_unmasked(last, entry),
        None => false,
    }
}
