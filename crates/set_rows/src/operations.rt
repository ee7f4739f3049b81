//! Operations to combine sets by, and a flag.

ghost use Rattle.std.specs.Prelude.{◌+◌, ◌%◌, bit_xor};

use value_bits::Flag;
use value_set::Operation;

/// A sum with a carry, modulo 256.
pub struct CarriedSum;

impl Operation for CarriedSum {
    ghost use Rattle.value_set.specs.Operations.{remainder_stays};

    ghost modulus = { λ _. 256 };

    ghost answer = { λ _ x y carry. (x + y + carry) % 256 };

    fn apply(&self, x: u16, y: u16, carry: u16) -> u16 {
        (x + y + carry) % 256
    }

    ghost stays_below = { λ _. remainder_stays 256 (λ x y carry. x + y + carry) };
}

/// The bits that an odd number of operands have, modulo 256.
pub struct OddBits;

impl Operation for OddBits {
    ghost use Rattle.value_set.specs.Operations.{remainder_stays};

    ghost modulus = { λ _. 256 };

    ghost answer = { λ _ x y carry. bit_xor (bit_xor x y) carry % 256 };

    fn apply(&self, x: u16, y: u16, carry: u16) -> u16 {
        (x ^ y ^ carry) % 256
    }

    ghost stays_below = { λ _. remainder_stays 256 (λ x y carry. bit_xor (bit_xor x y) carry) };
}

/// The carry out of bit 7 of a sum.
pub struct CarryOut;

impl Flag for CarryOut {
    ghost use Rattle.std.specs.Prelude.{◌+◌, nat_le};

    ghost modulus = { λ flag. 256 };

    ghost value = { λ flag x y carry. nat_le 256 (x + y + carry) };

    fn is_set(&self, x: u16, y: u16, carry: u16) -> bool {
        256 <= x as u32 + y as u32 + carry as u32
    }
}
