//! Sets of 16-bit numbers.

ghost use Rattle.std.specs.Prelude.{◌≡◌, ℕ, ◌+◌, ◌-◌, ◌*◌, ◌%◌, ◌<◌, ◌≤◌, ◌↔◌, IsTrue, IsNone, IsSome, IfSome, All, length, slice_index};
ghost use Rattle.std.specs.List.{Contains};
ghost use Rattle.value_set.specs.Calls as calls;
ghost use Rattle.value_set.specs.Calls.{Has, Includes, IsNoRun, IsNormal, above, members, single};
ghost use Rattle.value_set.specs.Widths.{IsByteList};

use crate::bytes::Vs8;
use crate::combining::Operation;
use crate::form::Form;
use crate::{member, sets, widths};
use std::marker::Model;

/// How many 16-bit numbers there are.
const MODULUS: u32 = 65536;

/// A set of 16-bit numbers: a list of at most 16, or a run with a stride. It has one form, so sets with the same members
/// are equal.
#[derive(Clone, Copy, Debug, PartialEq, Eq, Hash)]
pub struct Vs16 {
    form: Form,
}

impl Model for Vs16 {
    ghost use Rattle.value_set.specs.declared.form.Form.{Form};
    ghost use Rattle.value_set.specs.Form.{IsNormal};

    ghost Value = { Form };

    ghost view = { λ set. set.form };

    ghost invariant = { λ set. IsNormal 65536 set.form };

    ghost inverse = { λ form. record { form = form } };
}

impl Vs16 {
    /// The set that is written in a form.
    pub fn from_form(form: Form) -> Self
        requires { IsNormal 65536 form }
        ensures { result ≡ form }
    {
        Vs16 { form }
    }

    /// The set of one number.
    pub fn one(value: u16) -> Self
        ensures value { result ≡ single value }
        ensures normal { IsNormal 65536 result }
    {
        Vs16 {
            form: sets::single(value),
        }
    }

    /// The set of all numbers.
    pub fn any() -> Self
        ensures value { result ≡ calls.make 65536 0 1 65536 }
        ensures normal { IsNormal 65536 result }
        ensures all { (v : ℕ) → v < 65536 → Has 65536 result v }
    {
        Vs16 {
            form: sets::any(MODULUS),
        }
    }

    /// A set with each number of a list: they alone where they are at most 16. There is none of an empty list.
    pub fn gather(list: &[u16]) -> Option<Self>
        ensures none { IsNone result ↔ (length list.now ≡ 0) }
        ensures value { IfSome result (λ set. set ≡ calls.gather 65536 list.now) }
        ensures normal { IfSome result (λ set. IsNormal 65536 set) }
        ensures holds { IfSome result (λ set. All (λ v. Has 65536 set v) list.now) }
    {
        match sets::gather(MODULUS, list) {
            Some(form) => Some(Vs16 { form }),
            None => None,
        }
    }

    /// The set of `base + i * stride` modulo 65536, for each `i` below the count. There is none with no numbers or with
    /// more than 65536, with one number twice, and of a run that goes round.
    pub fn run(base: u16, stride: u16, count: u32) -> Option<Self>
        ensures none { IsNone result ↔ IsNoRun 65536 stride count }
        ensures value { IfSome result (λ set. set ≡ calls.make 65536 base stride count) }
        ensures normal { IfSome result (λ set. IsNormal 65536 set) }
        ensures exact { IfSome result (λ set. (v : ℕ) → Has 65536 set v ↔ Contains (calls.steps 65536 base stride count) v) }
    {
        match sets::run(MODULUS, base, stride, count) {
            Some(form) => Some(Vs16 { form }),
            None => None,
        }
    }

    /// The bytes of a set gathered as words with the high byte 0. A list of bytes is the same list of words.
    pub fn from_bytes(bytes: &Vs8) -> Self
        ensures value { result ≡ calls.gather 65536 (members 256 bytes.now) }
        ensures normal { IsNormal 65536 result }
        ensures holds { (v : ℕ) → Has 256 bytes.now v → Has 65536 result v }
        ensures listed { length (members 256 bytes.now) ≤ 16 → result ≡ bytes.now }
    {
        Vs16 {
            form: widths::as_words(&bytes.form()),
        }
    }

    /// The same numbers as bytes, where the set is a list of numbers below 256.
    pub fn as_bytes(&self) -> Option<Vs8>
        ensures listed { IsSome result ↔ IsByteList self.now }
        ensures value { IfSome result (λ set. set ≡ self.now) }
        ensures gathered { IfSome result (λ set. set ≡ calls.gather 256 (members 65536 self.now)) }
        ensures normal { IfSome result (λ set. IsNormal 256 set) }
    {
        match widths::as_bytes(&self.form) {
            Some(form) => Some(Vs8::from_form(form)),
            None => None,
        }
    }

    /// The list or the run, as a report prints it.
    pub fn form(&self) -> Form
        ensures value { result ≡ self.now }
        ensures normal { IsNormal 65536 self.now }
    {
        self.form
    }

    /// Whether a number is a member.
    pub fn has(&self, value: u16) -> bool
        ensures { IsTrue result ↔ Has 65536 self.now value }
    {
        member::has(MODULUS, &self.form, value)
    }

    /// How many members there are.
    pub fn count(&self) -> u32
        ensures value { result ≡ length (members 65536 self.now) }
        ensures some { 1 ≤ result }
        ensures most { result ≤ 65536 }
    {
        sets::count(MODULUS, &self.form)
    }

    /// The member at a place: ascending in a list, from the base in a run.
    pub fn nth(&self, place: u32) -> u16
        requires { place < length (members 65536 self.now) }
        ensures { result ≡ slice_index (members 65536 self.now) place }
    {
        sets::nth(MODULUS, &self.form, place)
    }

    /// The least member.
    pub fn least(&self) -> u16
        ensures value { result ≡ calls.least 65536 self.now }
        ensures member { Has 65536 self.now result }
        ensures first { (v : ℕ) → Has 65536 self.now v → result ≤ v }
    {
        sets::least(MODULUS, &self.form)
    }

    /// The greatest member.
    pub fn greatest(&self) -> u16
        ensures value { result ≡ calls.greatest 65536 self.now }
        ensures member { Has 65536 self.now result }
        ensures last { (v : ℕ) → Has 65536 self.now v → v ≤ result }
    {
        sets::greatest(MODULUS, &self.form)
    }

    /// Whether each member is one of the other set.
    pub fn within(&self, other: &Vs16) -> bool
        ensures value { result ≡ calls.is_within 65536 self.now other.now }
        ensures inclusion { IsTrue result ↔ Includes 65536 other.now self.now }
    {
        member::within(MODULUS, &self.form, &other.form)
    }

    /// A set that has the members of both.
    pub fn join(&self, other: &Vs16) -> Vs16
        ensures value { result ≡ calls.join 65536 self.now other.now }
        ensures normal { IsNormal 65536 result }
        ensures own { Includes 65536 result self.now }
        ensures others { Includes 65536 result other.now }
    {
        Vs16 {
            form: sets::join(MODULUS, &self.form, &other.form),
        }
    }

    /// A set that has the members of this one, which is held, and of a new one. Where it has to grow, its ends go on to
    /// the next marks.
    pub fn widen(&self, new: &Vs16, marks: &[u16]) -> Vs16
        ensures value { result ≡ calls.widen 65536 self.now new.now marks.now }
        ensures normal { IsNormal 65536 result }
        ensures held { Includes 65536 result self.now }
        ensures added { Includes 65536 result new.now }
    {
        Vs16 {
            form: sets::widen(MODULUS, &self.form, &new.form, marks),
        }
    }

    /// The sums modulo 65536 of the members of two sets.
    pub fn add(&self, other: &Vs16) -> Vs16
        ensures value { result ≡ calls.add 65536 self.now other.now }
        ensures normal { IsNormal 65536 result }
        ensures holds { (x y : ℕ) → Has 65536 self.now x → Has 65536 other.now y → Has 65536 result ((x + y) % 65536) }
        ensures alone { (x y : ℕ) → self.now ≡ single x → other.now ≡ single y → result ≡ single ((x + y) % 65536) }
    {
        Vs16 {
            form: sets::add(MODULUS, &self.form, &other.form),
        }
    }

    /// The differences modulo 65536 of the members of two sets.
    pub fn sub(&self, other: &Vs16) -> Vs16
        ensures value { result ≡ calls.sub 65536 self.now other.now }
        ensures normal { IsNormal 65536 result }
        ensures holds { (x y : ℕ) → Has 65536 self.now x → Has 65536 other.now y
            → Has 65536 result ((x + 65536 - y) % 65536) }
        ensures alone { (x y : ℕ) → self.now ≡ single x → other.now ≡ single y
            → result ≡ single ((x + 65536 - y) % 65536) }
    {
        Vs16 {
            form: sets::sub(MODULUS, &self.form, &other.form),
        }
    }

    /// The sums modulo 65536 of each member with itself.
    pub fn twice(&self) -> Vs16
        ensures value { result ≡ calls.twice 65536 self.now }
        ensures normal { IsNormal 65536 result }
        ensures holds { (x : ℕ) → Has 65536 self.now x → Has 65536 result ((x + x) % 65536) }
        ensures alone { (x : ℕ) → self.now ≡ single x → result ≡ single ((x + x) % 65536) }
    {
        Vs16 {
            form: sets::twice(MODULUS, &self.form),
        }
    }

    /// A set with the members that stand less than a length above a low end, round the circle. There is none where no
    /// member does.
    pub fn cut(&self, low: u16, len: u32) -> Option<Vs16>
        ensures none { IsNone result ↔ ((v : ℕ) → Has 65536 self.now v → len ≤ above 65536 low v) }
        ensures value { result ≡ calls.cut 65536 self.now low len }
        ensures normal { IfSome result (λ set. IsNormal 65536 set) }
        ensures holds { IfSome result (λ set. (v : ℕ) → Has 65536 self.now v → above 65536 low v < len → Has 65536 set v) }
    {
        match sets::cut(MODULUS, &self.form, low, len) {
            Some(form) => Some(Vs16 { form }),
            None => None,
        }
    }

    /// The results of an operation on each member of two sets with each carry, of at most 256 combinations.
    pub fn combine<O: Operation>(operation: &O, first: &Vs16, second: &Vs16, carry: &Vs16) -> Vs16
        requires width { O.modulus operation.now ≡ 65536 }
        requires few { length (members 65536 first.now) * (length (members 65536 second.now) * length (members 65536 carry.now)) ≤ 256 }
        ensures value { result ≡ calls.combine 65536 (O.answer operation.now) first.now second.now carry.now }
        ensures normal { IsNormal 65536 result }
        ensures holds { (x y z : ℕ) → Has 65536 first.now x → Has 65536 second.now y → Has 65536 carry.now z
            → Has 65536 result (O.answer operation.now x y z) }
        ensures alone { (x y z : ℕ) → first.now ≡ single x → second.now ≡ single y → carry.now ≡ single z
            → result ≡ single (O.answer operation.now x y z) }
    {
        Vs16 {
            form: sets::combine(MODULUS, operation, &first.form, &second.form, &carry.form),
        }
    }

    /// Sets with the same members are equal.
    pub fn same_members(&self, other: &Vs16)
        requires { (v : ℕ) → Has 65536 self.now v ↔ Has 65536 other.now v }
        ensures { self.now ≡ other.now }
    {
        sets::same_members(MODULUS, &self.form, &other.form);
    }
}
