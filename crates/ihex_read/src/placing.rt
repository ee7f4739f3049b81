//! Data bytes at their addresses: whether they may be placed, and the writing of them. An image is a slice of what
//! stands at each address, and the bytes stand from one address on.

ghost use Rattle.std.specs.Prelude.{◌≡◌, ◌+◌, ◌≤◌, ◌^◌, ◌<◌, ◌||◌, nat_lt, max, min, length};
ghost use Rattle.std.specs.Bool.{OnFalse};
ghost use Rattle.std.specs.List.{list_any, enumerate_from};
ghost use Rattle.image.specs.Kept.{lies_in, lies_in_mirror};
ghost use Rattle.ihex_read.specs.ImageText.{is_misplaced};
ghost use Rattle.ihex_read.specs.Loading.{is_outside, is_taken, is_resettable, written};

use image::{RamRange, Rules};

/// One more than the highest address.
pub const END_OF_MEMORY: usize = 65536;

/// Whether some of the bytes stands above FFFFh.
pub fn overruns(start: usize, bytes: &[u8]) -> bool
    requires { start < 2 ^ 33 }
    ensures some { result ≡ list_any is_outside (enumerate_from start bytes.now) }
    ensures fits { OnFalse result (0 < length bytes.now → start + length bytes.now ≤ END_OF_MEMORY) }
{
    !bytes.is_empty() && start + bytes.len() > END_OF_MEMORY
}

/// Whether some of the bytes stands where the image has another one.
pub fn clashes(image: &[Option<u8>], start: usize, bytes: &[u8]) -> bool
    requires { start + length bytes.now ≤ length image.now }
    ensures { result ≡ list_any (is_taken image.now) (enumerate_from start bytes.now) }
{
    for (i, byte) in bytes.iter().enumerate() {
        if let Some(held) = image[start + i] {
            if held != *byte {
                return true;
            }
        }
    }
    false
}

/// Whether some of the bytes stands where the chip allows none.
pub fn is_barred(rules: Rules, start: usize, bytes: &[u8]) -> bool
    requires { start < 2 ^ 33 }
    ensures { result ≡ list_any (λ byte. is_misplaced rules byte.0) (enumerate_from start bytes.now) }
{
    match rules {
        Rules::Msp430(ram) => stand_in_any(ram, start, bytes),
        Rules::Mcs51 => false,
    }
}

/// Whether some of the bytes stands where an MSP430 allows none: below 0200h, in RAM, or in its mirror.
fn stand_in_any(ram: RamRange, start: usize, bytes: &[u8]) -> bool
    requires { start < 2 ^ 33 }
    ensures { (let placed = enumerate_from start bytes.now in result
        ≡ ((list_any (λ byte. lies_in 0 511 byte.0) placed || list_any (λ byte. lies_in ram.lo ram.hi byte.0) placed)
        || list_any (λ byte. lies_in_mirror ram.mirror byte.0) placed)) }
{
    stand_in(0, 0x1FF, start, bytes)
        || stand_in(ram.lo, ram.hi, start, bytes)
        || stand_in_mirror(ram.mirror, start, bytes)
}

/// Whether some of the bytes stands in the mirror of RAM.
fn stand_in_mirror(mirror: Option<(u16, u16)>, start: usize, bytes: &[u8]) -> bool
    requires { start < 2 ^ 33 }
    ensures { result ≡ list_any (λ byte. lies_in_mirror mirror byte.0) (enumerate_from start bytes.now) }
{
    match mirror {
        Some((first, last)) => stand_in(first, last, start, bytes),
        None => false,
    }
}

/// Whether some of the bytes stands at an address from `low` to `high`.
fn stand_in(low: u16, high: u16, start: usize, bytes: &[u8]) -> bool
    requires { start < 2 ^ 33 }
    ensures { result ≡ list_any (λ byte. lies_in low high byte.0) (enumerate_from start bytes.now) }
{
    let end = start + bytes.len();
    start < end && start.max(usize::from(low)) < end.min(usize::from(high) + 1)
}

/// Writes the bytes.
pub fn write(image: &mut [Option<u8>], start: usize, bytes: &[u8])
    requires { start + length bytes.now ≤ length image.old }
    ensures { image.new ≡ written image.old (enumerate_from start bytes.now) }
{
    for (i, byte) in bytes.iter().enumerate() {
        image[start + i] = Some(*byte);
    }
}

/// Whether a chip can start from the image.
pub fn can_reset(rules: Rules, image: &[Option<u8>]) -> bool
    requires { length image.now ≡ END_OF_MEMORY }
    ensures { result ≡ is_resettable rules image.now }
{
    match rules {
        Rules::Msp430(_) => image[0xFFFE].is_some() && image[0xFFFF].is_some(),
        Rules::Mcs51 => true,
    }
}
