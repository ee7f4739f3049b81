//! Words and bits, place by place.

ghost use Rattle.std.specs.Prelude.{◌≡◌};
ghost use Rattle.entry_value.specs.Cells as the_cells;
ghost use Rattle.entry_value.specs.Words.{word_join, word_widen, word_within};
ghost use Rattle.value_bits.specs.Pointwise.{each_with, each_passes};

use entry_value::Word;
use value_set::Vs16;

/// A word of which nothing is known.
pub(crate) fn unknown() -> Word
    ensures { result ≡ the_cells.unknown 2 }
{
    Word {
        set: Vs16::any(),
        entry: None,
    }
}

/// The same words once more.
pub(crate) fn copy_all(words: &[Word; 12]) -> [Word; 12]
    ensures { result ≡ words.now }
{
    let mut all = [unknown(); 12];
    all.copy_from_slice(words.as_slice());
    all
}

/// Whether each word is within the other list's.
pub(crate) fn are_within(new: &[Word; 12], held: &[Word; 12]) -> bool
    ensures { result ≡ each_passes word_within new.now held.now }
{
    for i in 0..12 {
        if !new[i].within(&held[i]) {
            return false;
        }
    }
    true
}

/// Each word joined with the other list's.
pub(crate) fn join_all(held: &[Word; 12], new: &[Word; 12]) -> [Word; 12]
    ensures { result ≡ each_with word_join held.now new.now }
{
    let mut words = [unknown(); 12];
    for i in 0..12 {
        words[i] = held[i].join(&new[i]);
    }
    words
}

/// Each word widened by the other list's.
pub(crate) fn widen_all(held: &[Word; 12], new: &[Word; 12], marks: &[u16]) -> [Word; 12]
    ensures { result ≡ each_with (λ h n. word_widen h n marks.now) held.now new.now }
{
    let mut words = [unknown(); 12];
    for i in 0..12 {
        words[i] = held[i].widen(&new[i], marks);
    }
    words
}
