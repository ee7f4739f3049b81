//! Bytes.

ghost use Rattle.std.specs.Prelude.{◌≡◌, true, ℕ, Option, bit_and, bit_or};
ghost use Rattle.entry_value.specs.Words as words;
ghost use Rattle.entry_value.specs.Words.{Suspended, HoldsOfByte};

use crate::word::{Entry, common, is_entry_within, relation_and, relation_or};
use value_bits::w8;
use value_set::Vs8;

/// A set of 8-bit numbers, perhaps with a relation.
#[derive(Clone, Copy, Debug, PartialEq, Eq)]
pub struct Byte {
    pub set: Vs8,
    pub entry: Option<Entry>,
}

impl Byte {
    /// A byte that holds of all that either holds of.
    pub fn join(&self, other: &Byte) -> Byte
        ensures value { result ≡ words.byte_join self.now other.now }
        ensures own { (first : Option Suspended) (v : ℕ) → HoldsOfByte first self.now v → HoldsOfByte first result v }
        ensures others { (first : Option Suspended) (v : ℕ) → HoldsOfByte first other.now v
            → HoldsOfByte first result v }
    {
        Byte {
            set: self.set.join(&other.set),
            entry: common(&self.entry, &other.entry),
        }
    }

    /// Such a byte whose set's ends go on to the next marks where it has to grow.
    pub fn widen(&self, new: &Byte, marks: &[u8]) -> Byte
        ensures value { result ≡ words.byte_widen self.now new.now marks.now }
        ensures held { (first : Option Suspended) (v : ℕ) → HoldsOfByte first self.now v → HoldsOfByte first result v }
        ensures added { (first : Option Suspended) (v : ℕ) → HoldsOfByte first new.now v → HoldsOfByte first result v }
    {
        Byte {
            set: self.set.widen(&new.set, marks),
            entry: common(&self.entry, &new.entry),
        }
    }

    /// Whether the set is within the other one, and the other one's relation is this one's too.
    pub fn within(&self, other: &Byte) -> bool
        ensures value { result ≡ words.byte_within self.now other.now }
        ensures holds { result ≡ true → (first : Option Suspended) (v : ℕ) → HoldsOfByte first self.now v
            → HoldsOfByte first other.now v }
    {
        self.set.within(&other.set) && is_entry_within(&self.entry, &other.entry)
    }

    /// The byte behind an AND with a constant.
    pub fn mask_and(&self, m: u8) -> Byte
        ensures value { result ≡ words.byte_and m self.now }
        ensures holds { (first : Option Suspended) (v : ℕ) → HoldsOfByte first self.now v
            → HoldsOfByte first result (bit_and v m) }
    {
        Byte {
            set: w8::and(&self.set, &Vs8::one(m)),
            entry: relation_and(&self.entry, m as u16),
        }
    }

    /// The byte behind an OR with a constant.
    pub fn mask_or(&self, m: u8) -> Byte
        ensures value { result ≡ words.byte_or m self.now }
        ensures holds { (first : Option Suspended) (v : ℕ) → HoldsOfByte first self.now v
            → HoldsOfByte first result (bit_or v m) }
    {
        Byte {
            set: w8::or(&self.set, &Vs8::one(m)),
            entry: relation_or(&self.entry, m as u16),
        }
    }
}
