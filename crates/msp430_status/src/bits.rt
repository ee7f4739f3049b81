//! The bits of SR behind an instruction.

ghost use Rattle.std.specs.Prelude.{◌≡◌};
ghost use Rattle.value_bits.specs.Bits as known;
ghost use Rattle.value_bits.specs.Pointwise.{each_with};
ghost use Rattle.msp430_status.specs.Status as status;

use msp430_decode::{Operation, SingleOperation, Width};
use value_bits::Tri;

/// A bit that isn't another one.
fn without(held: Tri, source: Tri) -> Tri
    ensures { result ≡ known.tri_and held (known.tri_not source) }
{
    match (held, source) {
        (Tri::Zero, _) | (_, Tri::One) => Tri::Zero,
        (Tri::One, Tri::Zero) => Tri::One,
        _ => Tri::Either,
    }
}

/// Whether one of two bits is set.
fn joined(held: Tri, source: Tri) -> Tri
    ensures { result ≡ known.tri_or held source }
{
    match (held, source) {
        (Tri::One, _) | (_, Tri::One) => Tri::One,
        (Tri::Zero, Tri::Zero) => Tri::Zero,
        _ => Tri::Either,
    }
}

/// A bit of the result.
fn bit_behind(operation: Operation, source: Tri, held: Tri) -> Tri
    ensures { result ≡ status.bit_behind operation source held }
{
    match operation {
        Operation::Mov => source,
        Operation::Bic => without(held, source),
        Operation::Bis => joined(held, source),
        _ => Tri::Either,
    }
}

/// The bits of the result.
fn bits_behind(operation: Operation, source: &[Tri; 9], held: &[Tri; 9]) -> [Tri; 9]
    ensures { result ≡ each_with (status.bit_behind operation) source.now held.now }
{
    let mut bits = *held;
    for place in 0..9 {
        bits[place] = bit_behind(operation, source[place], held[place]);
    }
    bits
}

/// The bits of the result of MOV, BIC or BIS, by those of the source and those that SR held. A byte result has bit 8 clear.
pub(crate) fn moved_bits(
    operation: Operation,
    width: Width,
    source: &[Tri; 9],
    held: &[Tri; 9],
) -> [Tri; 9]
    ensures { result ≡ status.moved_bits operation width source.now held.now }
{
    let mut bits = bits_behind(operation, source, held);
    if width == Width::Byte {
        bits[8] = Tri::Zero;
    }
    bits
}

/// What is known of the bits of SR behind SWPB: V comes to bit 0, and C to bit 8.
fn swapped_bits(held: &[Tri; 9]) -> [Tri; 9]
    ensures { result ≡ status.swapped_bits held.now }
{
    let mut bits = [Tri::Either; 9];
    bits[0] = held[8];
    bits[8] = held[0];
    bits
}

/// What is known of the bits of SR behind an instruction that has it as its one operand.
pub(crate) fn single_bits(operation: SingleOperation, held: &[Tri; 9]) -> [Tri; 9]
    ensures { result ≡ status.single_bits operation held.now }
{
    match operation {
        SingleOperation::Swpb => swapped_bits(held),
        _ => [Tri::Either; 9],
    }
}
