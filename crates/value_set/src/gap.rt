//! The widest gap between neighbours among ascending numbers.

ghost use Rattle.std.specs.Prelude.{◌≡◌, ℕ, ◌+◌, ◌-◌, ◌<◌, ◌≤◌, ◌∷◌, List};
ghost use Rattle.value_set.specs.Gaps.{decided};

/// The widest gap of those met so far: the number behind it and its width, and the number met last.
#[derive(Clone, Copy)]
pub struct Gap {
    pub base: u16,
    pub width: u32,
    pub previous: u16,
}

impl Gap {
    /// The gap from the last number round the circle to the first.
    pub fn around(modulus: u32, first: u16, last: u16) -> Self
        requires small { modulus ≤ 65536 }
        requires below { last < modulus }
        ensures { result ≡ record { base = first; width = first + modulus - last; previous = first } }
    {
        Gap {
            base: first,
            width: first as u32 + modulus - last as u32,
            previous: first,
        }
    }

    /// With the gap up to the next number, which counts only where it is wider.
    pub fn past(self, value: u16) -> Self
        requires upward { self.previous ≤ value }
        ensures decides { (xs : List ℕ) → decided result xs ≡ decided self (value ∷ xs) }
        ensures last { result.previous ≡ value }
    {
        let width = (value - self.previous) as u32;
        if self.width < width {
            return Gap {
                base: value,
                width,
                previous: value,
            };
        }
        Gap {
            base: self.base,
            width: self.width,
            previous: value,
        }
    }
}
