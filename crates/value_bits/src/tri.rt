//! What is known of a bit, and what is done with bits.

ghost use Rattle.std.specs.Prelude.{◌≡◌};
ghost use Rattle.value_bits.specs.Bits as bits;

/// What is known of a bit.
#[derive(Clone, Copy, Debug, Default, PartialEq, Eq, Hash)]
pub enum Tri {
    /// It is 0.
    Zero,
    /// It is 1.
    One,
    /// It may be 0 or 1.
    #[default]
    Either,
}

/// The bit that a shift to the right puts in at the top.
#[derive(Clone, Copy, Debug, PartialEq, Eq, Hash)]
pub enum Top {
    /// The old top bit, which stays.
    Sign,
    /// The old lowest bit, which goes round.
    Low,
    /// A given bit.
    Put(Tri),
}

/// The bit that a shift to the left puts in at the lowest place.
#[derive(Clone, Copy, Debug, PartialEq, Eq, Hash)]
pub enum Lowest {
    /// The old top bit, which goes round.
    High,
    /// A given bit.
    Given(Tri),
}

/// An operation on two numbers, bit by bit.
#[derive(Clone, Copy, Debug, PartialEq, Eq, Hash)]
pub enum Logic {
    And,
    Or,
    Xor,
}

/// The other bit.
pub fn tri_not(bit: Tri) -> Tri
    ensures { result ≡ bits.tri_not bit }
{
    match bit {
        Tri::Zero => Tri::One,
        Tri::One => Tri::Zero,
        Tri::Either => Tri::Either,
    }
}

/// AND of bits: a 0 decides it.
pub fn tri_and(first: Tri, second: Tri) -> Tri
    ensures { result ≡ bits.tri_and first second }
{
    match (first, second) {
        (Tri::Zero, _) | (_, Tri::Zero) => Tri::Zero,
        (Tri::One, Tri::One) => Tri::One,
        _ => Tri::Either,
    }
}

/// OR of bits: a 1 decides it.
pub fn tri_or(first: Tri, second: Tri) -> Tri
    ensures { result ≡ bits.tri_or first second }
{
    match (first, second) {
        (Tri::One, _) | (_, Tri::One) => Tri::One,
        (Tri::Zero, Tri::Zero) => Tri::Zero,
        _ => Tri::Either,
    }
}

/// Exclusive OR of bits: both must be known.
pub fn tri_xor(first: Tri, second: Tri) -> Tri
    ensures { result ≡ bits.tri_xor first second }
{
    match (first, second) {
        (Tri::Zero, bit) => bit,
        (Tri::One, Tri::Zero) => Tri::One,
        (Tri::One, Tri::One) => Tri::Zero,
        _ => Tri::Either,
    }
}
