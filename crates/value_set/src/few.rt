//! Short lists of 16-bit numbers that are copied like numbers.

ghost use Rattle.std.specs.Prelude.{◌≡◌, ℕ, ◌<◌, ◌≤◌, ◌++◌, ◌∷◌, [], ◌==◌, length};

use std::marker::Model;

/// How many numbers the list of a set has at most.
pub const LONGEST: usize = 16;

/// A list of at most `N` numbers, which contracts see as that list. `N` is at most 255.
#[derive(Clone, Copy, Debug, PartialEq, Eq, Hash)]
pub struct Few<const N: usize> {
    places: [u16; N],
    len: u8,
}

impl<const N: usize> Model for Few<N> {
    ghost use Rattle.std.specs.Prelude.{ℕ, ◌-◌, ◌≤◌, List, ◌++◌, length, take, replicate};
    ghost use Rattle.value_set.specs.Few.{IsPadded};

    ghost Value = { List ℕ };

    ghost view = { λ f. take f.len f.places };

    ghost invariant = { λ f. IsPadded N f.len f.places × (N ≤ 255) };

    ghost inverse = { λ xs. record { places = xs ++ replicate (N - length xs) 0; len = length xs } };

    ghost use Rattle.std.proofs.Math.Path.{ap₂};
    ghost use Rattle.value_set.specs.Few.{length-front, places_back};
    ghost use Rattle.value_set.specs.declared.few.Few.TheInside.{Inside};

    ghost inverse_ok = { λ a h. ap₂ (λ (places : List ℕ) (len : ℕ). let back : Inside = record { places = places; len = len } in back) (places_back N a.len a.places h.0) (length-front N a.len a.places h.0) };
}

impl<const N: usize> Few<N> {
    /// The empty list.
    pub fn new() -> Self
        requires { N ≤ 255 }
        ensures { result ≡ [] }
    {
        Few {
            places: [0; N],
            len: 0,
        }
    }

    /// The list of these numbers.
    pub fn from_slice(list: &[u16]) -> Self
        requires most { N ≤ 255 }
        requires fits { length list.now ≤ N }
        ensures { result ≡ list.now }
    {
        let mut few = Few::new();
        for value in list {
            few.push(*value);
        }
        few
    }

    /// How many numbers there are, at most `N`.
    pub fn len(&self) -> usize
        ensures length { result ≡ length self.now }
        ensures room { result ≤ N }
    {
        self.len as usize
    }

    /// Whether there are none.
    pub fn is_empty(&self) -> bool
        ensures { result ≡ (length self.now == 0) }
    {
        self.len == 0
    }

    /// The numbers.
    pub fn as_slice(&self) -> &[u16]
        ensures numbers { result.now ≡ self.now }
        ensures room { length result.now ≤ N }
    {
        &self.places[..self.len as usize]
    }

    /// Adds a number at the end.
    pub fn push(&mut self, value: u16)
        requires { length self.old < N }
        ensures { self.new ≡ self.old ++ value ∷ [] }
    {
        self.places[self.len as usize] = value;
        self.len += 1;
    }
}
