//! Known bits of sets of 16-bit numbers, and bitwise and decimal operations on them.

ghost use Rattle.std.specs.Prelude.{◌≡◌, ℕ, ◌<◌, ◌&&◌, ◌==◌, nat_le, IsTrue, IsFalse, bit_and, bit_or, bit_xor};
ghost use Rattle.value_set.specs.Form.{Has, IsNormal};
ghost use Rattle.value_set.specs.Summing.{single};
ghost use Rattle.value_bits.specs.Bits as known;
ghost use Rattle.value_bits.specs.Bits.{Agrees, IsBit, logic_of};
ghost use Rattle.chip_numbers.specs.Numbers.{shifted_right, exchanged, sign_extended, low_byte, high_byte, word_of, is_decimal, decimal_sum};
ghost use Rattle.value_bits.specs.Sets.{IsTop, IsOneTop};
ghost use Rattle.value_bits.specs.Sets as sets;
ghost use Rattle.value_bits.specs.Flags.{IsFlag};
ghost use Rattle.value_bits.specs.Flags as flag_sets;
ghost use Rattle.value_bits.specs.AllFlags.{Place, known_at};

use crate::all_flags::{AllFlags, FourKnown};
use crate::flags::Flag;
use crate::formulas::sign_extend_set;
use crate::halves::{high_of_several, low_of_several, pair_of_several};
use crate::knowing::known_bits;
use crate::laws::bit_laws;
use crate::tri::{Logic, Top, Tri};
use crate::{all_flags, flags, order, results};
use value_set::sets::alone;
use value_set::{Vs8, Vs16};

/// How many bits a number has.
const WIDTH: usize = 16;

/// What is known of the bits of the members of a set, the lowest bit first.
pub fn bits(a: &Vs16) -> [Tri; 16]
    ensures value { result ≡ known.known_bits 16 a.now }
    ensures agrees { (v : ℕ) → Has 65536 a.now v → Agrees result v }
{
    let mut all = [Tri::Either; WIDTH];
    all.copy_from_slice(known_bits(16, &a.form()).as_slice());
    all
}

/// The set of the numbers with some bits, the lowest bit first.
pub fn from_bits(bits: &[Tri; 16]) -> Vs16
    ensures value { result ≡ known.from_bits 16 bits.now }
    ensures normal { IsNormal 65536 result }
    ensures holds { (v : ℕ) → Agrees bits.now v → Has 65536 result v }
{
    Vs16::from_form(results::from_bits(16, bits))
}

/// The bitwise AND of each member of a set with each of another.
pub fn and(a: &Vs16, b: &Vs16) -> Vs16
    ensures value { result ≡ sets.logic_set 16 Logic.And a.now b.now }
    ensures normal { IsNormal 65536 result }
    ensures holds { (x y : ℕ) → Has 65536 a.now x → Has 65536 b.now y → Has 65536 result (bit_and x y) }
    ensures alone { (x y : ℕ) → a.now ≡ single x → b.now ≡ single y → result ≡ single (bit_and x y) }
{
    logic(Logic::And, a, b)
}

/// The bitwise OR of each member of a set with each of another.
pub fn or(a: &Vs16, b: &Vs16) -> Vs16
    ensures value { result ≡ sets.logic_set 16 Logic.Or a.now b.now }
    ensures normal { IsNormal 65536 result }
    ensures holds { (x y : ℕ) → Has 65536 a.now x → Has 65536 b.now y → Has 65536 result (bit_or x y) }
    ensures alone { (x y : ℕ) → a.now ≡ single x → b.now ≡ single y → result ≡ single (bit_or x y) }
{
    logic(Logic::Or, a, b)
}

/// The bitwise exclusive OR of each member of a set with each of another.
pub fn xor(a: &Vs16, b: &Vs16) -> Vs16
    ensures value { result ≡ sets.logic_set 16 Logic.Xor a.now b.now }
    ensures normal { IsNormal 65536 result }
    ensures holds { (x y : ℕ) → Has 65536 a.now x → Has 65536 b.now y → Has 65536 result (bit_xor x y) }
    ensures alone { (x y : ℕ) → a.now ≡ single x → b.now ≡ single y → result ≡ single (bit_xor x y) }
{
    logic(Logic::Xor, a, b)
}

/// The results of a logic operation.
fn logic(logic: Logic, a: &Vs16, b: &Vs16) -> Vs16
    ensures value { result ≡ sets.logic_set 16 logic a.now b.now }
    ensures normal { IsNormal 65536 result }
    ensures holds { (x y : ℕ) → Has 65536 a.now x → Has 65536 b.now y → Has 65536 result (logic_of logic x y) }
    ensures alone { (x y : ℕ) → a.now ≡ single x → b.now ≡ single y → result ≡ single (logic_of logic x y) }
{
    Vs16::from_form(results::logic(16, logic, &a.form(), &b.form()))
}

/// Each member shifted to the right by one place. An unknown bit at the top counts as an unknown carry.
pub fn shift_right(a: &Vs16, top: Top) -> Vs16
    ensures value { result ≡ sets.shift_set 15 a.now top }
    ensures normal { IsNormal 65536 result }
    ensures holds { (x bit : ℕ) → Has 65536 a.now x → IsTop 15 top x bit → Has 65536 result (shifted_right 15 x bit) }
    ensures alone { (x bit : ℕ) → a.now ≡ single x → IsOneTop top → IsTop 15 top x bit
        → result ≡ single (shifted_right 15 x bit) }
{
    Vs16::from_form(results::shift_right(15, &a.form(), top))
}

/// Each member with its bytes exchanged.
pub fn swap_bytes(a: &Vs16) -> Vs16
    ensures value { result ≡ sets.exchange_set 8 a.now }
    ensures normal { IsNormal 65536 result }
    ensures holds { (x : ℕ) → Has 65536 a.now x → Has 65536 result (exchanged 256 x) }
    ensures alone { (x : ℕ) → a.now ≡ single x → result ≡ single (exchanged 256 x) }
{
    Vs16::from_form(results::exchange(8, &a.form()))
}

/// The low byte of each member, with its sign extended to the high byte.
pub fn sign_extend(a: &Vs16) -> Vs16
    ensures value { result ≡ sets.sign_extend_set a.now }
    ensures normal { IsNormal 65536 result }
    ensures holds { (x : ℕ) → Has 65536 a.now x → Has 65536 result (sign_extended x) }
    ensures alone { (x : ℕ) → a.now ≡ single x → result ≡ single (sign_extended x) }
{
    bit_laws();
    Vs16::from_form(sign_extend_set(&a.form()))
}

/// The low byte of each member.
pub fn low(a: &Vs16) -> Vs8
    ensures value { result ≡ sets.low_set a.now }
    ensures normal { IsNormal 256 result }
    ensures holds { (x : ℕ) → Has 65536 a.now x → Has 256 result (low_byte x) }
    ensures alone { (x : ℕ) → a.now ≡ single x → result ≡ single (low_byte x) }
{
    bit_laws();
    match alone(&a.form()) {
        Some(word) => Vs8::one((word % 256) as u8),
        None => low_of_several(a),
    }
}

/// The high byte of each member.
pub fn high(a: &Vs16) -> Vs8
    ensures value { result ≡ sets.high_set a.now }
    ensures normal { IsNormal 256 result }
    ensures holds { (x : ℕ) → Has 65536 a.now x → Has 256 result (high_byte x) }
    ensures alone { (x : ℕ) → a.now ≡ single x → result ≡ single (high_byte x) }
{
    bit_laws();
    match alone(&a.form()) {
        Some(word) => Vs8::one((word / 256) as u8),
        None => high_of_several(a),
    }
}

/// The words of each low byte with each high byte.
pub fn pair(low: &Vs8, high: &Vs8) -> Vs16
    ensures value { result ≡ sets.pair_set low.now high.now }
    ensures normal { IsNormal 65536 result }
    ensures holds { (x y : ℕ) → Has 256 low.now x → Has 256 high.now y → Has 65536 result (word_of x y) }
    ensures alone { (x y : ℕ) → low.now ≡ single x → high.now ≡ single y → result ≡ single (word_of x y) }
{
    bit_laws();
    match (alone(&low.form()), alone(&high.form())) {
        (Some(x), Some(y)) => Vs16::one(x + y * 256),
        _ => pair_of_several(low, high),
    }
}

/// What is known of a flag over each member of a set with each of another and a carry. It is known where at most 256
/// combinations agree. An unknown carry counts as two.
pub fn agreed<F: Flag>(flag: &F, a: &Vs16, b: &Vs16, carry: Tri) -> Tri
    requires { F.modulus flag.now ≡ 65536 }
    ensures value { result ≡ flag_sets.agreed 65536 (F.value flag.now) a.now b.now (sets.chosen carry) }
    ensures holds { (x y bit : ℕ) → Has 65536 a.now x → Has 65536 b.now y → IsBit carry bit
        → IsFlag result (F.value flag.now x y bit) }
{
    flags::agreed(65536, flag, &a.form(), &b.form(), carry)
}

/// What is known of each of the flags, up to four, that an operation sets over each member of a set with each of another
/// and a carry. Each is what [`agreed`] tells of it, and each combination is worked out once.
pub fn all_agreed<F: AllFlags>(operation: &F, a: &Vs16, b: &Vs16, carry: Tri) -> FourKnown
    requires { F.modulus operation.now ≡ 65536 }
    ensures value { (place : Place)
        → known_at place result ≡ flag_sets.agreed 65536 (F.value operation.now place) a.now b.now (sets.chosen carry) }
    ensures holds { (place : Place) (x y bit : ℕ) → Has 65536 a.now x → Has 65536 b.now y → IsBit carry bit
        → IsFlag (known_at place result) (F.value operation.now place x y bit) }
{
    all_flags::all_agreed(65536, operation, &a.form(), &b.form(), carry)
}

/// What is known of whether a number of a set is at least one of another, as the carry of a comparison tells. It is known
/// where at most 256 combinations agree.
pub fn at_least(a: &Vs16, b: &Vs16) -> Tri
    ensures value { result ≡ flag_sets.agreed 65536 (λ x y carry. nat_le y x) a.now b.now (single 0) }
    ensures holds { (x y : ℕ) → Has 65536 a.now x → Has 65536 b.now y → IsFlag result (nat_le y x) }
{
    order::at_least(65536, &a.form(), &b.form())
}

/// What is known of whether a number of a set is one of another, as the zero flag of a comparison tells. It is known where
/// at most 256 combinations agree.
pub fn equal(a: &Vs16, b: &Vs16) -> Tri
    ensures value { result ≡ flag_sets.agreed 65536 (λ x y carry. x == y) a.now b.now (single 0) }
    ensures holds { (x y : ℕ) → Has 65536 a.now x → Has 65536 b.now y → IsFlag result (x == y) }
{
    order::equal(65536, &a.form(), &b.form())
}

/// The decimal sum of each member of a set with each of another and a carry. An unknown carry counts as two. Where a
/// member has a digit above 9 it is any number.
pub fn decimal_add(a: &Vs16, b: &Vs16, carry: Tri) -> Vs16
    ensures value { result ≡ sets.decimal_add_set 4 a.now b.now carry }
    ensures normal { IsNormal 65536 result }
    ensures holds { (x y bit : ℕ) → Has 65536 a.now x → Has 65536 b.now y → IsBit carry bit
        → IsTrue (is_decimal 4 x) → IsTrue (is_decimal 4 y) → Has 65536 result (decimal_sum 4 x y bit) }
    ensures free { (x y v : ℕ) → Has 65536 a.now x → Has 65536 b.now y
        → IsFalse (is_decimal 4 x && is_decimal 4 y) → v < 65536 → Has 65536 result v }
    ensures alone { (x y bit : ℕ) → a.now ≡ single x → b.now ≡ single y → carry ≡ known.tri bit → bit < 2
        → IsTrue (is_decimal 4 x) → IsTrue (is_decimal 4 y) → result ≡ single (decimal_sum 4 x y bit) }
{
    Vs16::from_form(results::decimal_add(4, &a.form(), &b.form(), carry))
}
