//! The numbers that have some bits.

ghost use Rattle.std.specs.Prelude.{◌≡◌, ◌+◌, ◌*◌, ◌^◌, ◌<◌, ◌≤◌, ◌++◌, All, length, map};
ghost use Rattle.std.specs.List.{flat_map};
ghost use Rattle.value_bits.specs.Bits as bits;

use crate::tri::Tri;
use arrayvec::ArrayVec;

/// How many bits are unknown at most where all numbers with them are gathered.
pub const FEW_UNKNOWN: usize = 4;

/// How many numbers there are then.
pub const FEW: usize = 16;

/// How many bits are unknown.
pub fn unknown_count(all: &[Tri]) -> usize
    ensures { result ≡ bits.unknown_count all.now }
{
    all.iter().filter(|bit| is_unknown(**bit)).count()
}

/// The place of the lowest unknown bit, or the width where there is none.
pub fn lowest_unknown(all: &[Tri]) -> usize
    requires { length all.now ≤ 16 }
    ensures value { result ≡ bits.lowest_unknown all.now }
    ensures most { result ≤ length all.now }
{
    match all {
        [] => 0,
        [bit, ..] if is_unknown(*bit) => 0,
        [_, rest @ ..] => 1 + lowest_unknown(rest),
    }
}

fn is_unknown(bit: Tri) -> bool
    ensures { result ≡ bits.is_unknown bit }
{
    match bit {
        Tri::Zero | Tri::One => false,
        Tri::Either => true,
    }
}

/// The number with some bits, the lowest one first, where each unknown one is read as a given one.
pub fn filled(given: u32, all: &[Tri]) -> u32
    requires bit { given < 2 }
    requires short { length all.now ≤ 16 }
    ensures value { result ≡ bits.filled given all.now }
    ensures below { result < 2 ^ length all.now }
{
    match all {
        [] => 0,
        [bit, rest @ ..] => filled_bit(given, *bit) + 2 * filled(given, rest),
    }
}

fn filled_bit(given: u32, bit: Tri) -> u32
    requires { given < 2 }
    ensures value { result ≡ bits.filled_bit given bit }
    ensures below { result < 2 }
{
    match bit {
        Tri::Zero => 0,
        Tri::One => 1,
        Tri::Either => given,
    }
}

/// All numbers with some bits, the lowest one first.
pub fn numbers(all: &[Tri]) -> ArrayVec<u16, FEW>
    requires short { length all.now ≤ 16 }
    requires few { bits.unknown_count all.now ≤ 4 }
    ensures { result.items ≡ bits.numbers all.now }
{
    match all {
        [] => {
            let mut alone = ArrayVec::new();
            alone.push(0);
            alone
        }
        [bit, rest @ ..] => longer(*bit, numbers(rest).as_slice()),
    }
}

/// Some numbers with one more bit below theirs.
fn longer(bit: Tri, others: &[u16]) -> ArrayVec<u16, FEW>
    requires few { length others.now * length (bits.choices bit) ≤ 16 }
    requires small { All (λ n. n < 32768) others.now }
    ensures { result.items ≡ flat_map (λ v. map (λ low. 2 * v + low) (bits.choices bit)) others.now }
{
    let mut all = ArrayVec::new();
    for other in others {
        push_longer(&mut all, bit, *other);
    }
    all
}

/// Adds a number with one more bit below its own.
fn push_longer(all: &mut ArrayVec<u16, FEW>, bit: Tri, other: u16)
    requires room { length all.old.items + length (bits.choices bit) ≤ 16 }
    requires small { other < 32768 }
    ensures { all.new.items ≡ all.old.items ++ map (λ low. 2 * other + low) (bits.choices bit) }
{
    let double = 2 * other;
    match bit {
        Tri::Zero => all.push(double),
        Tri::One => all.push(double + 1),
        Tri::Either => {
            all.push(double);
            all.push(double + 1);
        }
    }
}
