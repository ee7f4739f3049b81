//! Whether numbers of a set stand in a range, by cuts of the set.

ghost use Rattle.std.specs.Prelude.{◌≡◌, ◌<◌, ◌≤◌, ℕ, Contains, nat_lt, not};
ghost use Rattle.std.specs.List.{list_any};
ghost use Rattle.value_set.specs.Form.{Has, above, members};
ghost use Rattle.assert_check.specs.Assertions.{is_between, numbers_in, reaches as the_reach};

use call_context::Set;
use value_set::{Vs8, Vs16, members_are_below};

/// Whether a number is from a first to a last one.
pub fn is_between(lo: u16, hi: u16, at: u16) -> bool
    ensures { result ≡ is_between lo hi at }
{
    lo <= at && at <= hi
}

/// The window of the circle of bytes that has the bytes of a window of the circle of words.
fn byte_window(from: u16, len: u32) -> (u8, u32)
    requires { len ≤ 65536 }
    ensures { (v : ℕ) → v < 256
        → nat_lt (above 65536 from v) len ≡ nat_lt (above 256 result.0 v) result.1 }
{
    let behind_turn = (from as u32 + len).saturating_sub(65536);
    if from < 256 {
        (from as u8, len.min(256 - from as u32) + behind_turn)
    } else {
        (0, behind_turn.min(256))
    }
}

/// Whether a set of words has a number less than a length above a low end, round the circle of words.
fn meets_words(words: &Vs16, from: u16, len: u32) -> bool
    ensures value { result ≡ list_any (λ v. nat_lt (above 65536 from v) len) (members 65536 words.now) }
    ensures below { (v : ℕ) → Has 65536 words.now v → v < 65536 }
{
    members_are_below();
    let _form = words.form();
    words.cut(from, len).is_some()
}

/// Whether a set of bytes has one.
fn meets_bytes(bytes: &Vs8, from: u16, len: u32) -> bool
    requires { len ≤ 65536 }
    ensures value { result ≡ list_any (λ v. nat_lt (above 65536 from v) len) (members 256 bytes.now) }
    ensures below { (v : ℕ) → Has 256 bytes.now v → v < 256 }
{
    members_are_below();
    let _form = bytes.form();
    let (low, size) = byte_window(from, len);
    bytes.cut(low, size).is_some()
}

/// Whether a set has one.
fn meets(set: &Set, from: u16, len: u32) -> bool
    requires { len ≤ 65536 }
    ensures value { result ≡ list_any (λ v. nat_lt (above 65536 from v) len) (numbers_in set.now) }
    ensures below { (v : ℕ) → Contains (numbers_in set.now) v → v < 65536 }
{
    match set {
        Set::B(bytes) => meets_bytes(bytes, from, len),
        Set::W(words) => meets_words(words, from, len),
    }
}

/// Whether a set has an address from which on one of so many bytes stands in the range. They go round behind FFFFh.
pub fn reaches(set: &Set, size: u8, lo: u16, hi: u16) -> bool
    ensures { result ≡ list_any (the_reach lo hi size) (numbers_in set.now) }
{
    if size == 0 || hi < lo {
        return false;
    }
    let before = size as u32 - 1;
    let from = (lo as u32 + 65536 - before) % 65536;
    let len = (hi - lo) as u32 + size as u32;
    meets(set, from as u16, len.min(65536))
}

/// Whether a set has a number outside the range.
pub fn leaves(set: &Set, lo: u16, hi: u16) -> bool
    ensures { result ≡ list_any (λ v. not (is_between lo hi v)) (numbers_in set.now) }
{
    let len = 65535 + lo as u32 - hi as u32;
    meets(set, hi.wrapping_add(1), len.min(65536))
}
