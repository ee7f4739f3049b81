//! A flag that an operation sets, over all combinations of members.

ghost use Rattle.std.specs.Prelude.{◌≡◌, ℕ, ◌<◌, ◌≤◌, Bool};
ghost use Rattle.value_set.specs.Form.{Has, IsNormal};
ghost use Rattle.value_bits.specs.Bits.{IsBit};
ghost use Rattle.value_bits.specs.Sets.{chosen};
ghost use Rattle.value_bits.specs.Flags as flags;
ghost use Rattle.value_bits.specs.Flags.{IsFlag};

use crate::all_flags::{AllFlags, FourFlags, all_agreed};
use crate::tri::Tri;
use value_set::Form;

/// A flag that an operation on two numbers and a carry below a modulus sets.
pub trait Flag {
    ghost modulus: { Self → ℕ };

    ghost value: { Self → ℕ → ℕ → ℕ → Bool };

    /// Whether the operation sets the flag.
    fn is_set(&self, x: u16, y: u16, carry: u16) -> bool
        requires x_below { x < modulus self.now }
        requires y_below { y < modulus self.now }
        requires carry_below { carry < modulus self.now }
        ensures { result ≡ value self.now x y carry };
}

/// A flag at all four places of a walk, which so ends where it isn't known.
#[derive(Drop)]
struct Fourfold<'a, F> {
    flag: &'a F,
}

impl<'a, F: Flag> AllFlags for Fourfold<'a, F> {
    ghost modulus = { λ fourfold. F.modulus fourfold.flag.now };

    ghost value = { λ fourfold place. F.value fourfold.flag.now };

    fn are_set(&self, x: u16, y: u16, carry: u16) -> FourFlags {
        let flag = self.flag.is_set(x, y, carry);
        FourFlags {
            first: flag,
            second: flag,
            third: flag,
            fourth: flag,
        }
    }
}

/// What is known of a flag over each member of a set with each of another and a carry: known where at most 256
/// combinations agree. An unknown carry counts as two.
pub fn agreed<F: Flag>(modulus: u32, flag: &F, first: &Form, second: &Form, carry: Tri) -> Tri
    requires small { modulus ≤ 65536 }
    requires wide { 2 ≤ modulus }
    requires first_normal { IsNormal modulus first.now }
    requires second_normal { IsNormal modulus second.now }
    requires width { F.modulus flag.now ≡ modulus }
    ensures value { result ≡ flags.agreed modulus (F.value flag.now) first.now second.now (chosen carry) }
    ensures holds { (x y bit : ℕ) → Has modulus first.now x → Has modulus second.now y → IsBit carry bit
        → IsFlag result (F.value flag.now x y bit) }
{
    all_agreed(modulus, &Fourfold { flag }, first, second, carry).first
}
