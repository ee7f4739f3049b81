//! The sets of `specs/Sets.antt` that are made of the low and the high bytes of words.

ghost use Rattle.std.specs.Prelude.{◌≡◌, ◌+◌, ◌*◌, ◌≤◌, ◌++◌, IsTrue, length, map};
ghost use Rattle.value_set.specs.Form as forms;
ghost use Rattle.value_set.specs.Form.{members};
ghost use Rattle.value_set.specs.Summing.{single, whole};
ghost use Rattle.chip_numbers.specs.Numbers.{low_byte, high_byte, word_of};
ghost use Rattle.value_bits.specs.Sets as sets;

use crate::knowing::{joined, known_bits};
use crate::results::from_bits;
use arrayvec::ArrayVec;
use value_set::sets::alone;
use value_set::{Form, Progression, Vs8, Vs16, set_laws};

/// The low byte of each member, of a set that may have several.
pub fn low_of_several(a: &Vs16) -> Vs8
    ensures { result ≡ sets.low_set a.now }
{
    if a.count() <= 256 {
        return low_of_few(a);
    }
    let bits = known_bits(16, &a.form());
    Vs8::from_form(from_bits(8, &bits.as_slice()[..8]))
}

/// Whether a set has each word below 100h and no other.
fn is_all_bytes(a: &Vs16) -> bool
    ensures { IsTrue result → a.now ≡ whole 256 }
{
    matches!(
        a.form(),
        Form::Run(Progression {
            base: 0,
            stride: 1,
            count: 256
        })
    )
}

/// The low bytes of all words below 100h.
fn all_bytes(a: &Vs16) -> Vs8
    requires { a.now ≡ whole 256 }
    ensures { result ≡ forms.gather 256 (map low_byte (members 65536 a.now)) }
{
    set_laws();
    Vs8::any()
}

/// The low byte of each of at most 256 members. A list below 100h stays as it is.
fn low_of_few(a: &Vs16) -> Vs8
    requires some { 1 ≤ length (members 65536 a.now) }
    requires few { length (members 65536 a.now) ≤ 256 }
    ensures { result ≡ forms.gather 256 (map low_byte (members 65536 a.now)) }
{
    if is_all_bytes(a) {
        return all_bytes(a);
    }
    match a.as_bytes() {
        Some(same) => same,
        None => bytes_of(low_bytes(a).as_slice()),
    }
}

/// The low bytes of the members, one after another.
fn low_bytes(a: &Vs16) -> ArrayVec<u8, 256>
    requires { length (members 65536 a.now) ≤ 256 }
    ensures { result.items ≡ map (λ x. low_byte x) (members 65536 a.now) }
{
    let mut all = ArrayVec::new();
    for place in 0..a.count() {
        all.push((a.nth(place) % 256) as u8);
    }
    all
}

/// The set of some bytes.
fn bytes_of(bytes: &[u8]) -> Vs8
    requires { 1 ≤ length bytes.now }
    ensures { result ≡ forms.gather 256 bytes.now }
{
    match Vs8::gather(bytes) {
        Some(set) => set,
        None => unreachable!(),
    }
}

/// The high byte of each member, of a set that may have several.
pub fn high_of_several(a: &Vs16) -> Vs8
    ensures { result ≡ sets.high_set a.now }
{
    if a.count() <= 256 {
        return bytes_of(high_bytes(a).as_slice());
    }
    let bits = known_bits(16, &a.form());
    Vs8::from_form(from_bits(8, &bits.as_slice()[8..]))
}

/// The high bytes of the members, one after another.
fn high_bytes(a: &Vs16) -> ArrayVec<u8, 256>
    requires { length (members 65536 a.now) ≤ 256 }
    ensures { result.items ≡ map (λ x. high_byte x) (members 65536 a.now) }
{
    let mut all = ArrayVec::new();
    for place in 0..a.count() {
        all.push((a.nth(place) / 256) as u8);
    }
    all
}

/// The words of each low byte with each high byte, of sets that may have several.
pub fn pair_of_several(low: &Vs8, high: &Vs8) -> Vs16
    ensures { result ≡ sets.pair_set low.now high.now }
{
    if low.count() * high.count() <= 256 {
        return pair_of_few(low, high);
    }
    let lows = known_bits(8, &low.form());
    let bits = joined(lows.as_slice(), known_bits(8, &high.form()).as_slice());
    Vs16::from_form(from_bits(16, bits.as_slice()))
}

/// The words of at most 256 combinations. Bytes with the high byte 0 stay as they are.
fn pair_of_few(low: &Vs8, high: &Vs8) -> Vs16
    requires low_some { 1 ≤ length (members 256 low.now) }
    requires high_some { 1 ≤ length (members 256 high.now) }
    requires few { length (members 256 low.now) * length (members 256 high.now) ≤ 256 }
    ensures { result ≡ forms.gather 65536 (sets.words (members 256 low.now) (members 256 high.now)) }
{
    if is_zero(high) {
        return Vs16::from_bytes(low);
    }
    match Vs16::gather(words_of(low, high).as_slice()) {
        Some(set) => set,
        None => unreachable!(),
    }
}

/// Whether a set has the byte 0 alone.
fn is_zero(bytes: &Vs8) -> bool
    ensures { IsTrue result → bytes.now ≡ single 0 }
{
    matches!(alone(&bytes.form()), Some(0))
}

/// The words of the members, one after another.
fn words_of(low: &Vs8, high: &Vs8) -> ArrayVec<u16, 256>
    requires { length (members 256 low.now) * length (members 256 high.now) ≤ 256 }
    ensures { result.items ≡ sets.words (members 256 low.now) (members 256 high.now) }
{
    let mut all = ArrayVec::new();
    for place in 0..low.count() {
        push_words(&mut all, low.nth(place), high);
    }
    all
}

/// Adds the words of one low byte.
fn push_words(all: &mut ArrayVec<u16, 256>, low: u8, high: &Vs8)
    requires { length all.old.items + length (members 256 high.now) ≤ 256 }
    ensures { all.new.items ≡ all.old.items ++ map (λ y. word_of low y) (members 256 high.now) }
{
    for place in 0..high.count() {
        all.push(low as u16 + high.nth(place) as u16 * 256);
    }
}
