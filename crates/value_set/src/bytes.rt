//! Sets of 8-bit numbers.

ghost use Rattle.std.specs.Prelude.{◌≡◌, ℕ, ◌+◌, ◌-◌, ◌*◌, ◌%◌, ◌<◌, ◌≤◌, ◌↔◌, IsTrue, IsNone, IfSome, All, length, slice_index};
ghost use Rattle.std.specs.List.{Contains};
ghost use Rattle.value_set.specs.Calls as calls;
ghost use Rattle.value_set.specs.Calls.{Has, Includes, IsNoRun, IsNormal, above, members, single};

use crate::combining::Operation;
use crate::form::Form;
use crate::{member, sets};
use std::marker::Model;

/// How many 8-bit numbers there are.
const MODULUS: u32 = 256;

/// A set of 8-bit numbers: a list of at most 16, or a run with a stride. It has one form, so sets with the same members
/// are equal.
#[derive(Clone, Copy, Debug, PartialEq, Eq, Hash)]
pub struct Vs8 {
    form: Form,
}

impl Model for Vs8 {
    ghost use Rattle.value_set.specs.declared.form.Form.{Form};
    ghost use Rattle.value_set.specs.Form.{IsNormal};

    ghost Value = { Form };

    ghost view = { λ set. set.form };

    ghost invariant = { λ set. IsNormal 256 set.form };

    ghost inverse = { λ form. record { form = form } };
}

impl Vs8 {
    /// The set that is written in a form.
    pub fn from_form(form: Form) -> Self
        requires { IsNormal 256 form }
        ensures { result ≡ form }
    {
        Vs8 { form }
    }

    /// The set of one number.
    pub fn one(value: u8) -> Self
        ensures value { result ≡ single value }
        ensures normal { IsNormal 256 result }
    {
        Vs8 {
            form: sets::single(value as u16),
        }
    }

    /// The set of all numbers.
    pub fn any() -> Self
        ensures value { result ≡ calls.make 256 0 1 256 }
        ensures normal { IsNormal 256 result }
        ensures all { (v : ℕ) → v < 256 → Has 256 result v }
    {
        Vs8 {
            form: sets::any(MODULUS),
        }
    }

    /// A set with each number of a list: they alone where they are at most 16. There is none of an empty list.
    pub fn gather(list: &[u8]) -> Option<Self>
        ensures none { IsNone result ↔ (length list.now ≡ 0) }
        ensures value { IfSome result (λ set. set ≡ calls.gather 256 list.now) }
        ensures normal { IfSome result (λ set. IsNormal 256 set) }
        ensures holds { IfSome result (λ set. All (λ v. Has 256 set v) list.now) }
    {
        match sets::gather(MODULUS, list) {
            Some(form) => Some(Vs8 { form }),
            None => None,
        }
    }

    /// The set of `base + i * stride` modulo 256, for each `i` below the count. There is none with no numbers or with
    /// more than 256, with one number twice, and of a run that goes round.
    pub fn run(base: u8, stride: u8, count: u32) -> Option<Self>
        ensures none { IsNone result ↔ IsNoRun 256 stride count }
        ensures value { IfSome result (λ set. set ≡ calls.make 256 base stride count) }
        ensures normal { IfSome result (λ set. IsNormal 256 set) }
        ensures exact { IfSome result (λ set. (v : ℕ) → Has 256 set v ↔ Contains (calls.steps 256 base stride count) v) }
    {
        match sets::run(MODULUS, base as u16, stride as u16, count) {
            Some(form) => Some(Vs8 { form }),
            None => None,
        }
    }

    /// The list or the run, as a report prints it.
    pub fn form(&self) -> Form
        ensures value { result ≡ self.now }
        ensures normal { IsNormal 256 self.now }
    {
        self.form
    }

    /// Whether a number is a member.
    pub fn has(&self, value: u8) -> bool
        ensures { IsTrue result ↔ Has 256 self.now value }
    {
        member::has(MODULUS, &self.form, value as u16)
    }

    /// How many members there are.
    pub fn count(&self) -> u32
        ensures value { result ≡ length (members 256 self.now) }
        ensures some { 1 ≤ result }
        ensures most { result ≤ 256 }
    {
        sets::count(MODULUS, &self.form)
    }

    /// The member at a place: ascending in a list, from the base in a run.
    pub fn nth(&self, place: u32) -> u8
        requires { place < length (members 256 self.now) }
        ensures { result ≡ slice_index (members 256 self.now) place }
    {
        sets::nth(MODULUS, &self.form, place) as u8
    }

    /// The least member.
    pub fn least(&self) -> u8
        ensures value { result ≡ calls.least 256 self.now }
        ensures member { Has 256 self.now result }
        ensures first { (v : ℕ) → Has 256 self.now v → result ≤ v }
    {
        sets::least(MODULUS, &self.form) as u8
    }

    /// The greatest member.
    pub fn greatest(&self) -> u8
        ensures value { result ≡ calls.greatest 256 self.now }
        ensures member { Has 256 self.now result }
        ensures last { (v : ℕ) → Has 256 self.now v → v ≤ result }
    {
        sets::greatest(MODULUS, &self.form) as u8
    }

    /// Whether each member is one of the other set.
    pub fn within(&self, other: &Vs8) -> bool
        ensures value { result ≡ calls.is_within 256 self.now other.now }
        ensures inclusion { IsTrue result ↔ Includes 256 other.now self.now }
    {
        member::within(MODULUS, &self.form, &other.form)
    }

    /// A set that has the members of both.
    pub fn join(&self, other: &Vs8) -> Vs8
        ensures value { result ≡ calls.join 256 self.now other.now }
        ensures normal { IsNormal 256 result }
        ensures own { Includes 256 result self.now }
        ensures others { Includes 256 result other.now }
    {
        Vs8 {
            form: sets::join(MODULUS, &self.form, &other.form),
        }
    }

    /// A set that has the members of this one, which is held, and of a new one. Where it has to grow, its ends go on to
    /// the next marks.
    pub fn widen(&self, new: &Vs8, marks: &[u8]) -> Vs8
        ensures value { result ≡ calls.widen 256 self.now new.now marks.now }
        ensures normal { IsNormal 256 result }
        ensures held { Includes 256 result self.now }
        ensures added { Includes 256 result new.now }
    {
        Vs8 {
            form: sets::widen(MODULUS, &self.form, &new.form, marks),
        }
    }

    /// The sums modulo 256 of the members of two sets.
    pub fn add(&self, other: &Vs8) -> Vs8
        ensures value { result ≡ calls.add 256 self.now other.now }
        ensures normal { IsNormal 256 result }
        ensures holds { (x y : ℕ) → Has 256 self.now x → Has 256 other.now y → Has 256 result ((x + y) % 256) }
        ensures alone { (x y : ℕ) → self.now ≡ single x → other.now ≡ single y → result ≡ single ((x + y) % 256) }
    {
        Vs8 {
            form: sets::add(MODULUS, &self.form, &other.form),
        }
    }

    /// The differences modulo 256 of the members of two sets.
    pub fn sub(&self, other: &Vs8) -> Vs8
        ensures value { result ≡ calls.sub 256 self.now other.now }
        ensures normal { IsNormal 256 result }
        ensures holds { (x y : ℕ) → Has 256 self.now x → Has 256 other.now y → Has 256 result ((x + 256 - y) % 256) }
        ensures alone { (x y : ℕ) → self.now ≡ single x → other.now ≡ single y → result ≡ single ((x + 256 - y) % 256) }
    {
        Vs8 {
            form: sets::sub(MODULUS, &self.form, &other.form),
        }
    }

    /// The sums modulo 256 of each member with itself.
    pub fn twice(&self) -> Vs8
        ensures value { result ≡ calls.twice 256 self.now }
        ensures normal { IsNormal 256 result }
        ensures holds { (x : ℕ) → Has 256 self.now x → Has 256 result ((x + x) % 256) }
        ensures alone { (x : ℕ) → self.now ≡ single x → result ≡ single ((x + x) % 256) }
    {
        Vs8 {
            form: sets::twice(MODULUS, &self.form),
        }
    }

    /// A set with the members that stand less than a length above a low end, round the circle. There is none where no
    /// member does.
    pub fn cut(&self, low: u8, len: u32) -> Option<Vs8>
        ensures none { IsNone result ↔ ((v : ℕ) → Has 256 self.now v → len ≤ above 256 low v) }
        ensures value { result ≡ calls.cut 256 self.now low len }
        ensures normal { IfSome result (λ set. IsNormal 256 set) }
        ensures holds { IfSome result (λ set. (v : ℕ) → Has 256 self.now v → above 256 low v < len → Has 256 set v) }
    {
        match sets::cut(MODULUS, &self.form, low as u16, len) {
            Some(form) => Some(Vs8 { form }),
            None => None,
        }
    }

    /// The results of an operation on each member of two sets with each carry, of at most 256 combinations.
    pub fn combine<O: Operation>(operation: &O, first: &Vs8, second: &Vs8, carry: &Vs8) -> Vs8
        requires width { O.modulus operation.now ≡ 256 }
        requires few { length (members 256 first.now) * (length (members 256 second.now) * length (members 256 carry.now)) ≤ 256 }
        ensures value { result ≡ calls.combine 256 (O.answer operation.now) first.now second.now carry.now }
        ensures normal { IsNormal 256 result }
        ensures holds { (x y z : ℕ) → Has 256 first.now x → Has 256 second.now y → Has 256 carry.now z
            → Has 256 result (O.answer operation.now x y z) }
        ensures alone { (x y z : ℕ) → first.now ≡ single x → second.now ≡ single y → carry.now ≡ single z
            → result ≡ single (O.answer operation.now x y z) }
    {
        Vs8 {
            form: sets::combine(MODULUS, operation, &first.form, &second.form, &carry.form),
        }
    }

    /// Sets with the same members are equal.
    pub fn same_members(&self, other: &Vs8)
        requires { (v : ℕ) → Has 256 self.now v ↔ Has 256 other.now v }
        ensures { self.now ≡ other.now }
    {
        sets::same_members(MODULUS, &self.form, &other.form);
    }
}
