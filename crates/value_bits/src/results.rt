//! The sets of the results of operations, at any width, with all that is promised of them.

ghost use Rattle.std.specs.Prelude.{◌≡◌, ℕ, ◌+◌, ◌^◌, ◌<◌, ◌≤◌, ◌&&◌, IsTrue, IsFalse, length};
ghost use Rattle.value_set.specs.Form.{Has, IsNormal};
ghost use Rattle.value_set.specs.Summing.{single};
ghost use Rattle.value_bits.specs.Bits as known;
ghost use Rattle.value_bits.specs.Bits.{Agrees, IsBit, logic_of};
ghost use Rattle.chip_numbers.specs.Numbers.{shifted_left, shifted_right, exchanged, is_decimal, decimal_sum};
ghost use Rattle.value_bits.specs.Sets.{IsTop, IsOneTop};
ghost use Rattle.value_bits.specs.Sets as sets;
ghost use Rattle.value_bits.specs.Lefts.{IsLowest, IsOneLowest};
ghost use Rattle.value_bits.specs.Lefts as lefts;

use crate::forming::with_bits;
use crate::formulas::{decimal_add_set, exchange_set, left_set, logic_set, shift_set};
use crate::laws::bit_laws;
use crate::tri::{Logic, Lowest, Top, Tri};
use value_set::Form;

/// The set of the numbers with some bits, the lowest bit first.
pub fn from_bits(width: u32, bits: &[Tri]) -> Form
    requires narrow { width ≤ 16 }
    requires wide { length bits.now ≡ width }
    ensures value { result ≡ known.from_bits width bits.now }
    ensures normal { IsNormal (2 ^ width) result }
    ensures holds { (v : ℕ) → Agrees bits.now v → Has (2 ^ width) result v }
{
    bit_laws();
    with_bits(width, bits)
}

/// The results of a logic operation.
pub fn logic(width: u32, logic: Logic, a: &Form, b: &Form) -> Form
    requires narrow { width ≤ 16 }
    requires first_normal { IsNormal (2 ^ width) a.now }
    requires second_normal { IsNormal (2 ^ width) b.now }
    ensures value { result ≡ sets.logic_set width logic a.now b.now }
    ensures normal { IsNormal (2 ^ width) result }
    ensures holds { (x y : ℕ) → Has (2 ^ width) a.now x → Has (2 ^ width) b.now y
        → Has (2 ^ width) result (logic_of logic x y) }
    ensures alone { (x y : ℕ) → a.now ≡ single x → b.now ≡ single y → result ≡ single (logic_of logic x y) }
{
    bit_laws();
    logic_set(width, logic, a, b)
}

/// Each member shifted to the right by one place.
pub fn shift_right(place: u32, a: &Form, top: Top) -> Form
    requires narrow { place < 16 }
    requires normal { IsNormal (2 ^ (place + 1)) a.now }
    ensures value { result ≡ sets.shift_set place a.now top }
    ensures normal { IsNormal (2 ^ (place + 1)) result }
    ensures holds { (x bit : ℕ) → Has (2 ^ (place + 1)) a.now x → IsTop place top x bit
        → Has (2 ^ (place + 1)) result (shifted_right place x bit) }
    ensures alone { (x bit : ℕ) → a.now ≡ single x → IsOneTop top → IsTop place top x bit
        → result ≡ single (shifted_right place x bit) }
{
    bit_laws();
    shift_set(place, a, top)
}

/// Each member shifted to the left by one place.
pub fn shift_left(place: u32, a: &Form, lowest: Lowest) -> Form
    requires narrow { place < 16 }
    requires normal { IsNormal (2 ^ (place + 1)) a.now }
    ensures value { result ≡ lefts.left_set place a.now lowest }
    ensures normal { IsNormal (2 ^ (place + 1)) result }
    ensures holds { (x bit : ℕ) → Has (2 ^ (place + 1)) a.now x → IsLowest place lowest x bit
        → Has (2 ^ (place + 1)) result (shifted_left place x bit) }
    ensures alone { (x bit : ℕ) → a.now ≡ single x → IsOneLowest lowest → IsLowest place lowest x bit
        → result ≡ single (shifted_left place x bit) }
{
    bit_laws();
    left_set(place, a, lowest)
}

/// Each member with its halves exchanged.
pub fn exchange(half: u32, a: &Form) -> Form
    requires narrow { half ≤ 8 }
    requires normal { IsNormal (2 ^ (half + half)) a.now }
    ensures value { result ≡ sets.exchange_set half a.now }
    ensures normal { IsNormal (2 ^ (half + half)) result }
    ensures holds { (x : ℕ) → Has (2 ^ (half + half)) a.now x
        → Has (2 ^ (half + half)) result (exchanged (2 ^ half) x) }
    ensures alone { (x : ℕ) → a.now ≡ single x → result ≡ single (exchanged (2 ^ half) x) }
{
    bit_laws();
    exchange_set(half, a)
}

/// The decimal sum of each member with each of another set and a carry.
pub fn decimal_add(digits: u32, a: &Form, b: &Form, carry: Tri) -> Form
    requires some { 1 ≤ digits }
    requires few { digits ≤ 4 }
    requires first_normal { IsNormal (16 ^ digits) a.now }
    requires second_normal { IsNormal (16 ^ digits) b.now }
    ensures value { result ≡ sets.decimal_add_set digits a.now b.now carry }
    ensures normal { IsNormal (16 ^ digits) result }
    ensures holds { (x y bit : ℕ) → Has (16 ^ digits) a.now x → Has (16 ^ digits) b.now y → IsBit carry bit
        → IsTrue (is_decimal digits x) → IsTrue (is_decimal digits y)
        → Has (16 ^ digits) result (decimal_sum digits x y bit) }
    ensures free { (x y v : ℕ) → Has (16 ^ digits) a.now x → Has (16 ^ digits) b.now y
        → IsFalse (is_decimal digits x && is_decimal digits y) → v < 16 ^ digits → Has (16 ^ digits) result v }
    ensures alone { (x y bit : ℕ) → a.now ≡ single x → b.now ≡ single y → carry ≡ known.tri bit → bit < 2
        → IsTrue (is_decimal digits x) → IsTrue (is_decimal digits y)
        → result ≡ single (decimal_sum digits x y bit) }
{
    bit_laws();
    decimal_add_set(digits, a, b, carry)
}
