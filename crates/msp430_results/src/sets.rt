//! Sets of the numbers of a width.

ghost use Rattle.std.specs.Prelude.{◌≡◌, ℕ, ◌<◌, ◌==◌, nat_le, true, [], ◌∷◌, length, map};
ghost use Rattle.value_set.specs.declared.form.Form.{Form};
ghost use Rattle.value_set.specs.declared.form.Form.TheVariants as the_form;
ghost use Rattle.value_set.specs.Form.{Has, IsNormal};
ghost use Rattle.value_set.specs.Summing as sums;
ghost use Rattle.value_bits.specs.declared.tri.Logic.TheVariants as logic;
ghost use Rattle.value_bits.specs.AllFlags.{Place, known_at};
ghost use Rattle.value_bits.specs.Bits as bits;
ghost use Rattle.value_bits.specs.Flags as flags;
ghost use Rattle.value_bits.specs.Flags.{IsFlag};
ghost use Rattle.value_bits.specs.Sets as sets;
ghost use Rattle.msp430_decode.specs.declared.instr.Width.TheVariants.{Word};
ghost use Rattle.msp430_decode.specs.declared.instr.Width.{Width as AWidth};
ghost use Rattle.msp430_chip.specs.Arithmetic.{modulus, is_negative, top_place, digits_of};
ghost use Rattle.value_bits.specs.Pointwise.{each_with};
ghost use Rattle.msp430_results.specs.FlagSets as flag_sets;
ghost use Rattle.msp430_results.specs.Results as results;

use msp430_decode::Width;
use value_bits::decimal::are_decimal;
use value_bits::{AllFlags, FourKnown, Top, Tri, w8, w16};
use value_set::{Few, Form, Operation, Vs8, Vs16, set_laws};

/// Sets of words, or sets of bytes.
pub(crate) trait Sets: Copy {
    ghost width: { AWidth };

    ghost form: { Self → Form };

    /// The width of the members.
    fn own_width() -> Width
        ensures { result ≡ width };

    /// What an unknown bit may be, as a set.
    fn chosen(bit: Tri) -> Self
        ensures { form result ≡ sets.chosen bit };

    /// The carry, less one.
    fn borrowed(carry: Tri) -> Self
        ensures { form result ≡ results.borrowed (modulus width) carry };

    /// The list or the run.
    fn list_or_run(&self) -> Form
        ensures { result ≡ form self.now };

    /// A law: the set is in its one form.
    fn is_normal(&self)
        ensures { IsNormal (modulus width) (form self.now) };

    fn plus(&self, other: &Self) -> Self
        ensures { form result ≡ sums.add (modulus width) (form self.now) (form other.now) };

    fn minus(&self, other: &Self) -> Self
        ensures { form result ≡ sums.sub (modulus width) (form self.now) (form other.now) };

    fn doubled(&self) -> Self
        ensures { form result ≡ sums.twice (modulus width) (form self.now) };

    fn and(&self, other: &Self) -> Self
        ensures { form result ≡ sets.logic_set (flag_sets.bits_of width) logic.And (form self.now) (form other.now) };

    fn or(&self, other: &Self) -> Self
        ensures { form result ≡ sets.logic_set (flag_sets.bits_of width) logic.Or (form self.now) (form other.now) };

    fn xor(&self, other: &Self) -> Self
        ensures { form result ≡ sets.logic_set (flag_sets.bits_of width) logic.Xor (form self.now) (form other.now) };

    /// The numbers with the known bits of the members, less those of the other set.
    fn without_bits(&self, other: &Self) -> Self
        ensures { form result ≡ bits.from_bits (flag_sets.bits_of width) (each_with bits.tri_and (bits.known_bits (flag_sets.bits_of width) (form self.now)) (map bits.tri_not (bits.known_bits (flag_sets.bits_of width) (form other.now)))) };

    /// Each member moved down by one place.
    fn shifted(&self, top: Top) -> Self
        ensures { form result ≡ sets.shift_set (top_place width) (form self.now) top };

    fn decimal_plus(&self, other: &Self, carry: Tri) -> Self
        ensures { form result ≡ sets.decimal_add_set (digits_of width) (form self.now) (form other.now) carry };

    /// Whether each digit of each member is at most 9.
    fn are_decimal(&self) -> bool
        ensures { result ≡ sets.are_decimal (digits_of width) (form self.now) };

    /// Whether sets have at most 256 combinations.
    fn is_few(first: &Self, second: &Self, carry: &Self) -> bool
        ensures { result ≡ flag_sets.is_few (modulus width) (form first.now) (form second.now) (form carry.now) };

    /// All results of an operation.
    fn combined<O: Operation>(operation: &O, first: &Self, second: &Self, carry: &Self) -> Self
        requires same { O.modulus operation.now ≡ modulus width }
        requires few { flag_sets.is_few (modulus width) (form first.now) (form second.now) (form carry.now) ≡ true }
        ensures { form result ≡ sums.combine (modulus width) (O.answer operation.now) (form first.now) (form second.now) (form carry.now) };

    /// What is known of each of the flags of an operation, over at most 256 combinations.
    fn all_agreed<F: AllFlags>(operation: &F, first: &Self, second: &Self, carry: Tri) -> FourKnown
        requires { F.modulus operation.now ≡ modulus width }
        ensures { (place : Place)
            → known_at place result ≡ flags.agreed (modulus width) (F.value operation.now place) (form first.now) (form second.now) (sets.chosen carry) };

    /// Whether numbers are at least those of another set, over at most 256 combinations.
    fn at_least(&self, other: &Self) -> Tri
        ensures { result ≡ flags.agreed (modulus width) (λ x y carry. nat_le y x) (form self.now) (form other.now) (sums.single 0) };

    /// Whether numbers are equal to those of another set, over at most 256 combinations.
    fn equal(&self, other: &Self) -> Tri
        ensures { result ≡ flags.agreed (modulus width) (λ x y carry. x == y) (form self.now) (form other.now) (sums.single 0) };

    /// Whether the members are negative, where they are at most 256.
    fn sign(&self) -> Tri
        ensures { (v : ℕ) → Has (modulus width) (form self.now) v → IsFlag result (is_negative width v) };

    /// Z, by the members.
    fn zero(&self) -> Tri
        ensures { result ≡ flag_sets.zero_of width (form self.now) };

    /// N, by the known bits.
    fn negative(&self) -> Tri
        ensures { result ≡ flag_sets.negative_of width (form self.now) };
}

/// Z of results: clear where 0 is none of them, and set where it is the only one.
fn zero_by(has_zero: bool, count: u32) -> Tri
    ensures { result ≡ flag_sets.zero_by has_zero count }
{
    match (has_zero, count) {
        (false, _) => Tri::Zero,
        (true, 1) => Tri::One,
        (true, _) => Tri::Either,
    }
}

/// A bit that is kept where the other one is clear.
fn bit_without(bit: Tri, cleared: Tri) -> Tri
    ensures { result ≡ bits.tri_and bit (bits.tri_not cleared) }
{
    match (bit, cleared) {
        (Tri::Zero, _) | (_, Tri::One) => Tri::Zero,
        (Tri::One, Tri::Zero) => Tri::One,
        _ => Tri::Either,
    }
}

/// Bits less others.
fn clear(held: &mut [Tri], others: &[Tri])
    requires { length held.old ≡ length others.now }
    ensures { held.new ≡ each_with bits.tri_and held.old (map bits.tri_not others.now) }
{
    for place in 0..held.len() {
        held[place] = bit_without(held[place], others[place]);
    }
}

/// The set of two numbers.
#[tactic(auto, using(crate::proofs::Twos::two_normal))]
fn two(low: u16, high: u16) -> Form
    requires { low < high }
    ensures value { result ≡ the_form.Values (low ∷ high ∷ []) }
    ensures normal { (m : ℕ) → high < m → IsNormal m result }
{
    Form::Values(Few::from_slice([low, high].as_slice()))
}

impl Sets for Vs16 {
    ghost use Rattle.msp430_decode.specs.declared.instr.Width.TheVariants.{Word};

    ghost width = { Word };

    ghost form = { λ set. set };

    fn own_width() -> Width {
        Width::Word
    }

    fn chosen(bit: Tri) -> Self {
        match bit {
            Tri::Zero => Vs16::one(0),
            Tri::One => Vs16::one(1),
            Tri::Either => Vs16::from_form(two(0, 1)),
        }
    }

    fn borrowed(carry: Tri) -> Self {
        match carry {
            Tri::Zero => Vs16::one(0xFFFF),
            Tri::One => Vs16::one(0),
            Tri::Either => Vs16::from_form(two(0, 0xFFFF)),
        }
    }

    fn list_or_run(&self) -> Form {
        self.form()
    }

    fn is_normal(&self) {
        self.form();
    }

    fn plus(&self, other: &Self) -> Self {
        self.add(other)
    }

    fn minus(&self, other: &Self) -> Self {
        self.sub(other)
    }

    fn doubled(&self) -> Self {
        self.twice()
    }

    fn and(&self, other: &Self) -> Self {
        w16::and(self, other)
    }

    fn or(&self, other: &Self) -> Self {
        w16::or(self, other)
    }

    fn xor(&self, other: &Self) -> Self {
        w16::xor(self, other)
    }

    fn without_bits(&self, other: &Self) -> Self {
        let mut bits = w16::bits(self);
        clear(&mut bits, &w16::bits(other));
        w16::from_bits(&bits)
    }

    fn shifted(&self, top: Top) -> Self {
        w16::shift_right(self, top)
    }

    fn decimal_plus(&self, other: &Self, carry: Tri) -> Self {
        w16::decimal_add(self, other, carry)
    }

    fn are_decimal(&self) -> bool {
        are_decimal(65536, 4, &self.form())
    }

    fn is_few(first: &Self, second: &Self, carry: &Self) -> bool {
        first.count() as u64 * (second.count() as u64 * carry.count() as u64) <= 256
    }

    fn combined<O: Operation>(operation: &O, first: &Self, second: &Self, carry: &Self) -> Self {
        Vs16::combine(operation, first, second, carry)
    }

    fn all_agreed<F: AllFlags>(
        operation: &F,
        first: &Self,
        second: &Self,
        carry: Tri,
    ) -> FourKnown {
        w16::all_agreed(operation, first, second, carry)
    }

    fn at_least(&self, other: &Self) -> Tri {
        w16::at_least(self, other)
    }

    fn equal(&self, other: &Self) -> Tri {
        w16::equal(self, other)
    }

    fn sign(&self) -> Tri {
        w16::at_least(self, &Vs16::one(0x8000))
    }

    fn zero(&self) -> Tri {
        set_laws();
        zero_by(self.has(0), self.count())
    }

    fn negative(&self) -> Tri {
        w16::bits(self)[15]
    }
}

impl Sets for Vs8 {
    ghost use Rattle.msp430_decode.specs.declared.instr.Width.TheVariants.{Byte};

    ghost width = { Byte };

    ghost form = { λ set. set };

    fn own_width() -> Width {
        Width::Byte
    }

    fn chosen(bit: Tri) -> Self {
        match bit {
            Tri::Zero => Vs8::one(0),
            Tri::One => Vs8::one(1),
            Tri::Either => Vs8::from_form(two(0, 1)),
        }
    }

    fn borrowed(carry: Tri) -> Self {
        match carry {
            Tri::Zero => Vs8::one(0xFF),
            Tri::One => Vs8::one(0),
            Tri::Either => Vs8::from_form(two(0, 0xFF)),
        }
    }

    fn list_or_run(&self) -> Form {
        self.form()
    }

    fn is_normal(&self) {
        self.form();
    }

    fn plus(&self, other: &Self) -> Self {
        self.add(other)
    }

    fn minus(&self, other: &Self) -> Self {
        self.sub(other)
    }

    fn doubled(&self) -> Self {
        self.twice()
    }

    fn and(&self, other: &Self) -> Self {
        w8::and(self, other)
    }

    fn or(&self, other: &Self) -> Self {
        w8::or(self, other)
    }

    fn xor(&self, other: &Self) -> Self {
        w8::xor(self, other)
    }

    fn without_bits(&self, other: &Self) -> Self {
        let mut bits = w8::bits(self);
        clear(&mut bits, &w8::bits(other));
        w8::from_bits(&bits)
    }

    fn shifted(&self, top: Top) -> Self {
        w8::shift_right(self, top)
    }

    fn decimal_plus(&self, other: &Self, carry: Tri) -> Self {
        w8::decimal_add(self, other, carry)
    }

    fn are_decimal(&self) -> bool {
        are_decimal(256, 2, &self.form())
    }

    fn is_few(first: &Self, second: &Self, carry: &Self) -> bool {
        first.count() as u64 * (second.count() as u64 * carry.count() as u64) <= 256
    }

    fn combined<O: Operation>(operation: &O, first: &Self, second: &Self, carry: &Self) -> Self {
        Vs8::combine(operation, first, second, carry)
    }

    fn all_agreed<F: AllFlags>(
        operation: &F,
        first: &Self,
        second: &Self,
        carry: Tri,
    ) -> FourKnown {
        w8::all_agreed(operation, first, second, carry)
    }

    fn at_least(&self, other: &Self) -> Tri {
        w8::at_least(self, other)
    }

    fn equal(&self, other: &Self) -> Tri {
        w8::equal(self, other)
    }

    fn sign(&self) -> Tri {
        w8::at_least(self, &Vs8::one(0x80))
    }

    fn zero(&self) -> Tri {
        set_laws();
        zero_by(self.has(0), self.count())
    }

    fn negative(&self) -> Tri {
        w8::bits(self)[7]
    }
}
