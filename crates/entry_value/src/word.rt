//! Words and their relations.

ghost use Rattle.std.specs.Prelude.{◌≡◌, true, ℕ, Option, Some, option_map, bit_and, bit_or};
ghost use Rattle.entry_value.specs.Words as words;
ghost use Rattle.entry_value.specs.Words.{Suspended, IsFromEntry, HoldsOfWord};

use value_bits::w16;
use value_set::Vs16;

/// How a number came from a place of the suspended state: what the place held when the interrupt came, AND a mask, OR a
/// mask.
#[derive(Clone, Copy, Debug, PartialEq, Eq)]
pub struct Entry {
    /// The chip's number of the place.
    pub place: u16,
    pub and: u16,
    pub or: u16,
}

/// A set of 16-bit numbers, perhaps with a relation.
#[derive(Clone, Copy, Debug, PartialEq, Eq)]
pub struct Word {
    pub set: Vs16,
    pub entry: Option<Entry>,
}

/// A relation that both values have.
pub fn common(a: &Option<Entry>, b: &Option<Entry>) -> Option<Entry>
    ensures { result ≡ words.common_entry a.now b.now }
{
    match (a, b) {
        (Some(one), Some(other)) if one == other => *a,
        _ => None,
    }
}

/// Whether the second has no relation that the first one lacks.
pub(crate) fn is_entry_within(a: &Option<Entry>, b: &Option<Entry>) -> bool
    ensures { result ≡ words.is_entry_within a.now b.now }
{
    b.is_none() || a == b
}

impl Entry {
    /// The relation behind an AND with a mask.
    pub fn mask_and(&self, m: u16) -> Entry
        ensures value { result ≡ words.entry_and m self.now }
        ensures holds { (first : Option Suspended) (v : ℕ) → IsFromEntry first (Some self.now) v
            → IsFromEntry first (Some result) (bit_and v m) }
    {
        Entry {
            place: self.place,
            and: self.and & m,
            or: self.or & m,
        }
    }

    /// The relation behind an OR with a mask.
    pub fn mask_or(&self, m: u16) -> Entry
        ensures value { result ≡ words.entry_or m self.now }
        ensures holds { (first : Option Suspended) (v : ℕ) → IsFromEntry first (Some self.now) v
            → IsFromEntry first (Some result) (bit_or v m) }
    {
        Entry {
            place: self.place,
            and: self.and,
            or: self.or | m,
        }
    }
}

/// A relation behind an AND with a mask, where there is one.
pub(crate) fn relation_and(entry: &Option<Entry>, m: u16) -> Option<Entry>
    ensures value { result ≡ option_map (words.entry_and m) entry.now }
    ensures holds { (first : Option Suspended) (v : ℕ) → IsFromEntry first entry.now v
        → IsFromEntry first result (bit_and v m) }
{
    match entry {
        Some(entry) => Some(entry.mask_and(m)),
        None => None,
    }
}

/// A relation behind an OR with a mask, where there is one.
pub(crate) fn relation_or(entry: &Option<Entry>, m: u16) -> Option<Entry>
    ensures value { result ≡ option_map (words.entry_or m) entry.now }
    ensures holds { (first : Option Suspended) (v : ℕ) → IsFromEntry first entry.now v
        → IsFromEntry first result (bit_or v m) }
{
    match entry {
        Some(entry) => Some(entry.mask_or(m)),
        None => None,
    }
}

impl Word {
    /// A word that holds of all that either holds of.
    pub fn join(&self, other: &Word) -> Word
        ensures value { result ≡ words.word_join self.now other.now }
        ensures own { (first : Option Suspended) (v : ℕ) → HoldsOfWord first self.now v → HoldsOfWord first result v }
        ensures others { (first : Option Suspended) (v : ℕ) → HoldsOfWord first other.now v
            → HoldsOfWord first result v }
    {
        Word {
            set: self.set.join(&other.set),
            entry: common(&self.entry, &other.entry),
        }
    }

    /// Such a word whose set's ends go on to the next marks where it has to grow.
    pub fn widen(&self, new: &Word, marks: &[u16]) -> Word
        ensures value { result ≡ words.word_widen self.now new.now marks.now }
        ensures held { (first : Option Suspended) (v : ℕ) → HoldsOfWord first self.now v → HoldsOfWord first result v }
        ensures added { (first : Option Suspended) (v : ℕ) → HoldsOfWord first new.now v → HoldsOfWord first result v }
    {
        Word {
            set: self.set.widen(&new.set, marks),
            entry: common(&self.entry, &new.entry),
        }
    }

    /// Whether the set is within the other one, and the other one's relation is this one's too.
    pub fn within(&self, other: &Word) -> bool
        ensures value { result ≡ words.word_within self.now other.now }
        ensures holds { result ≡ true → (first : Option Suspended) (v : ℕ) → HoldsOfWord first self.now v
            → HoldsOfWord first other.now v }
    {
        self.set.within(&other.set) && is_entry_within(&self.entry, &other.entry)
    }

    /// The word behind an AND with a constant.
    pub fn mask_and(&self, m: u16) -> Word
        ensures value { result ≡ words.word_and m self.now }
        ensures holds { (first : Option Suspended) (v : ℕ) → HoldsOfWord first self.now v
            → HoldsOfWord first result (bit_and v m) }
    {
        Word {
            set: w16::and(&self.set, &Vs16::one(m)),
            entry: relation_and(&self.entry, m),
        }
    }

    /// The word behind an OR with a constant.
    pub fn mask_or(&self, m: u16) -> Word
        ensures value { result ≡ words.word_or m self.now }
        ensures holds { (first : Option Suspended) (v : ℕ) → HoldsOfWord first self.now v
            → HoldsOfWord first result (bit_or v m) }
    {
        Word {
            set: w16::or(&self.set, &Vs16::one(m)),
            entry: relation_or(&self.entry, m),
        }
    }
}
