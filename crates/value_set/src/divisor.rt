//! Common divisors.

ghost use Rattle.std.specs.Prelude.{◌≡◌};
ghost use Rattle.value_set.specs.Gcd.{gcd};

/// The greatest common divisor. Of 0 and a number it is that number.
pub fn greatest_common_divisor(mut a: u32, mut b: u32) -> u32
    ensures { result ≡ gcd a b }
{
    if a < b {
        (a, b) = (b, a);
    }
    while b != 0 {
        (a, b) = (b, a % b);
    }
    a
}
