//! Known bits of sets of 8-bit numbers, and bitwise and decimal operations on them.

ghost use Rattle.std.specs.Prelude.{◌≡◌, ℕ, ◌<◌, ◌&&◌, ◌==◌, nat_le, IsTrue, IsFalse, bit_and, bit_or, bit_xor};
ghost use Rattle.value_set.specs.Form.{Has, IsNormal};
ghost use Rattle.value_set.specs.Summing.{single};
ghost use Rattle.value_bits.specs.Bits as known;
ghost use Rattle.value_bits.specs.Bits.{Agrees, IsBit, logic_of};
ghost use Rattle.chip_numbers.specs.Numbers.{shifted_left, shifted_right, exchanged, is_decimal, decimal_sum, decimal_adjusted};
ghost use Rattle.value_bits.specs.Sets.{IsTop, IsOneTop};
ghost use Rattle.value_bits.specs.Sets as sets;
ghost use Rattle.value_bits.specs.Flags.{IsFlag};
ghost use Rattle.value_bits.specs.Flags as flag_sets;
ghost use Rattle.value_bits.specs.AllFlags.{Place, known_at};
ghost use Rattle.value_bits.specs.Lefts.{IsLowest, IsOneLowest};
ghost use Rattle.value_bits.specs.Lefts as lefts;

use crate::all_flags::{AllFlags, FourKnown};
use crate::flags::Flag;
use crate::formulas::decimal_adjust_set;
use crate::knowing::known_bits;
use crate::laws::bit_laws;
use crate::tri::{Logic, Lowest, Top, Tri};
use crate::{all_flags, flags, order, results};
use value_set::Vs8;

/// How many bits a number has.
const WIDTH: usize = 8;

/// What is known of the bits of the members of a set, the lowest bit first.
pub fn bits(a: &Vs8) -> [Tri; 8]
    ensures value { result ≡ known.known_bits 8 a.now }
    ensures agrees { (v : ℕ) → Has 256 a.now v → Agrees result v }
{
    let mut all = [Tri::Either; WIDTH];
    all.copy_from_slice(known_bits(8, &a.form()).as_slice());
    all
}

/// The set of the numbers with some bits, the lowest bit first.
pub fn from_bits(bits: &[Tri; 8]) -> Vs8
    ensures value { result ≡ known.from_bits 8 bits.now }
    ensures normal { IsNormal 256 result }
    ensures holds { (v : ℕ) → Agrees bits.now v → Has 256 result v }
{
    Vs8::from_form(results::from_bits(8, bits))
}

/// The bitwise AND of each member of a set with each of another.
pub fn and(a: &Vs8, b: &Vs8) -> Vs8
    ensures value { result ≡ sets.logic_set 8 Logic.And a.now b.now }
    ensures normal { IsNormal 256 result }
    ensures holds { (x y : ℕ) → Has 256 a.now x → Has 256 b.now y → Has 256 result (bit_and x y) }
    ensures alone { (x y : ℕ) → a.now ≡ single x → b.now ≡ single y → result ≡ single (bit_and x y) }
{
    logic(Logic::And, a, b)
}

/// The bitwise OR of each member of a set with each of another.
pub fn or(a: &Vs8, b: &Vs8) -> Vs8
    ensures value { result ≡ sets.logic_set 8 Logic.Or a.now b.now }
    ensures normal { IsNormal 256 result }
    ensures holds { (x y : ℕ) → Has 256 a.now x → Has 256 b.now y → Has 256 result (bit_or x y) }
    ensures alone { (x y : ℕ) → a.now ≡ single x → b.now ≡ single y → result ≡ single (bit_or x y) }
{
    logic(Logic::Or, a, b)
}

/// The bitwise exclusive OR of each member of a set with each of another.
pub fn xor(a: &Vs8, b: &Vs8) -> Vs8
    ensures value { result ≡ sets.logic_set 8 Logic.Xor a.now b.now }
    ensures normal { IsNormal 256 result }
    ensures holds { (x y : ℕ) → Has 256 a.now x → Has 256 b.now y → Has 256 result (bit_xor x y) }
    ensures alone { (x y : ℕ) → a.now ≡ single x → b.now ≡ single y → result ≡ single (bit_xor x y) }
{
    logic(Logic::Xor, a, b)
}

/// The results of a logic operation.
fn logic(logic: Logic, a: &Vs8, b: &Vs8) -> Vs8
    ensures value { result ≡ sets.logic_set 8 logic a.now b.now }
    ensures normal { IsNormal 256 result }
    ensures holds { (x y : ℕ) → Has 256 a.now x → Has 256 b.now y → Has 256 result (logic_of logic x y) }
    ensures alone { (x y : ℕ) → a.now ≡ single x → b.now ≡ single y → result ≡ single (logic_of logic x y) }
{
    Vs8::from_form(results::logic(8, logic, &a.form(), &b.form()))
}

/// Each member shifted to the right by one place. An unknown bit at the top counts as an unknown carry.
pub fn shift_right(a: &Vs8, top: Top) -> Vs8
    ensures value { result ≡ sets.shift_set 7 a.now top }
    ensures normal { IsNormal 256 result }
    ensures holds { (x bit : ℕ) → Has 256 a.now x → IsTop 7 top x bit → Has 256 result (shifted_right 7 x bit) }
    ensures alone { (x bit : ℕ) → a.now ≡ single x → IsOneTop top → IsTop 7 top x bit
        → result ≡ single (shifted_right 7 x bit) }
{
    Vs8::from_form(results::shift_right(7, &a.form(), top))
}

/// Each member shifted to the left by one place. An unknown bit at the lowest place counts as an unknown carry.
pub fn shift_left(a: &Vs8, lowest: Lowest) -> Vs8
    ensures value { result ≡ lefts.left_set 7 a.now lowest }
    ensures normal { IsNormal 256 result }
    ensures holds { (x bit : ℕ) → Has 256 a.now x → IsLowest 7 lowest x bit → Has 256 result (shifted_left 7 x bit) }
    ensures alone { (x bit : ℕ) → a.now ≡ single x → IsOneLowest lowest → IsLowest 7 lowest x bit
        → result ≡ single (shifted_left 7 x bit) }
{
    Vs8::from_form(results::shift_left(7, &a.form(), lowest))
}

/// Each member with its two digits exchanged.
pub fn swap_digits(a: &Vs8) -> Vs8
    ensures value { result ≡ sets.exchange_set 4 a.now }
    ensures normal { IsNormal 256 result }
    ensures holds { (x : ℕ) → Has 256 a.now x → Has 256 result (exchanged 16 x) }
    ensures alone { (x : ℕ) → a.now ≡ single x → result ≡ single (exchanged 16 x) }
{
    Vs8::from_form(results::exchange(4, &a.form()))
}

/// What is known of a flag over each member of a set with each of another and a carry. It is known where at most 256
/// combinations agree. An unknown carry counts as two.
pub fn agreed<F: Flag>(flag: &F, a: &Vs8, b: &Vs8, carry: Tri) -> Tri
    requires { F.modulus flag.now ≡ 256 }
    ensures value { result ≡ flag_sets.agreed 256 (F.value flag.now) a.now b.now (sets.chosen carry) }
    ensures holds { (x y bit : ℕ) → Has 256 a.now x → Has 256 b.now y → IsBit carry bit
        → IsFlag result (F.value flag.now x y bit) }
{
    flags::agreed(256, flag, &a.form(), &b.form(), carry)
}

/// What is known of each of the flags, up to four, that an operation sets over each member of a set with each of another
/// and a carry. Each is what [`agreed`] tells of it, and each combination is worked out once.
pub fn all_agreed<F: AllFlags>(operation: &F, a: &Vs8, b: &Vs8, carry: Tri) -> FourKnown
    requires { F.modulus operation.now ≡ 256 }
    ensures value { (place : Place)
        → known_at place result ≡ flag_sets.agreed 256 (F.value operation.now place) a.now b.now (sets.chosen carry) }
    ensures holds { (place : Place) (x y bit : ℕ) → Has 256 a.now x → Has 256 b.now y → IsBit carry bit
        → IsFlag (known_at place result) (F.value operation.now place x y bit) }
{
    all_flags::all_agreed(256, operation, &a.form(), &b.form(), carry)
}

/// What is known of whether a number of a set is at least one of another, as the carry of a comparison tells. It is known
/// where at most 256 combinations agree.
pub fn at_least(a: &Vs8, b: &Vs8) -> Tri
    ensures value { result ≡ flag_sets.agreed 256 (λ x y carry. nat_le y x) a.now b.now (single 0) }
    ensures holds { (x y : ℕ) → Has 256 a.now x → Has 256 b.now y → IsFlag result (nat_le y x) }
{
    order::at_least(256, &a.form(), &b.form())
}

/// What is known of whether a number of a set is one of another, as the zero flag of a comparison tells. It is known where
/// at most 256 combinations agree.
pub fn equal(a: &Vs8, b: &Vs8) -> Tri
    ensures value { result ≡ flag_sets.agreed 256 (λ x y carry. x == y) a.now b.now (single 0) }
    ensures holds { (x y : ℕ) → Has 256 a.now x → Has 256 b.now y → IsFlag result (x == y) }
{
    order::equal(256, &a.form(), &b.form())
}

/// The decimal sum of each member of a set with each of another and a carry. An unknown carry counts as two. Where a
/// member has a digit above 9 it is any number.
pub fn decimal_add(a: &Vs8, b: &Vs8, carry: Tri) -> Vs8
    ensures value { result ≡ sets.decimal_add_set 2 a.now b.now carry }
    ensures normal { IsNormal 256 result }
    ensures holds { (x y bit : ℕ) → Has 256 a.now x → Has 256 b.now y → IsBit carry bit
        → IsTrue (is_decimal 2 x) → IsTrue (is_decimal 2 y) → Has 256 result (decimal_sum 2 x y bit) }
    ensures free { (x y v : ℕ) → Has 256 a.now x → Has 256 b.now y
        → IsFalse (is_decimal 2 x && is_decimal 2 y) → v < 256 → Has 256 result v }
    ensures alone { (x y bit : ℕ) → a.now ≡ single x → b.now ≡ single y → carry ≡ known.tri bit → bit < 2
        → IsTrue (is_decimal 2 x) → IsTrue (is_decimal 2 y) → result ≡ single (decimal_sum 2 x y bit) }
{
    Vs8::from_form(results::decimal_add(2, &a.form(), &b.form(), carry))
}

/// The decimal adjustment of each member behind an addition, with CY and AC. Each of the two that is unknown counts as
/// an unknown carry.
pub fn decimal_adjust(a: &Vs8, carry: Tri, half: Tri) -> Vs8
    ensures value { result ≡ sets.decimal_adjust_set a.now carry half }
    ensures normal { IsNormal 256 result }
    ensures holds { (x y z : ℕ) → Has 256 a.now x → IsBit carry y → IsBit half z
        → Has 256 result (decimal_adjusted x y z) }
    ensures alone { (x y z : ℕ) → a.now ≡ single x → carry ≡ known.tri y → y < 2 → half ≡ known.tri z → z < 2
        → result ≡ single (decimal_adjusted x y z) }
{
    bit_laws();
    Vs8::from_form(decimal_adjust_set(&a.form(), carry, half))
}
