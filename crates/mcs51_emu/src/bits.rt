//! Bits of bytes.

ghost use Rattle.std.specs.Prelude.{◌≡◌, ◌<◌, ◌≤◌, ◌^◌};
ghost use Rattle.std.specs.Int as numbers;
ghost use Rattle.mcs51_chip.specs.Registers as registers;

/// The number that a place of a byte stands for.
fn weight(place: u8) -> u8
    requires { place < 8 }
    ensures value { result ≡ 2 ^ place }
    ensures some { 1 ≤ result }
{
    1 << place
}

/// The bit at a place.
pub(crate) fn bit_at(byte: u8, place: u8) -> u8
    requires { place < 8 }
    ensures value { result ≡ numbers.bit_at byte place }
    ensures below { result ≤ 1 }
{
    byte / weight(place) % 2
}

/// A byte with another value of one of its bits.
pub(crate) fn with_bit(byte: u8, place: u8, bit: u8) -> u8
    requires place { place < 8 }
    requires bit { bit ≤ 1 }
    ensures { result ≡ registers.with_bit byte place bit }
{
    let weight = weight(place);
    byte - bit_at(byte, place) * weight + bit * weight
}

/// P: whether a byte has an odd number of bits that are 1.
pub(crate) fn parity(a: u8) -> u8
    ensures value { result ≡ registers.parity a }
    ensures below { result ≤ 1 }
{
    (a % 2 + a / 2 % 2 + a / 4 % 2 + a / 8 % 2 + a / 16 % 2 + a / 32 % 2 + a / 64 % 2 + a / 128 % 2)
        % 2
}

/// A flag as a number.
pub(crate) fn bit_of(flag: bool) -> u8
    ensures value { result ≡ registers.bit_of flag }
    ensures below { result ≤ 1 }
{
    if flag { 1 } else { 0 }
}
