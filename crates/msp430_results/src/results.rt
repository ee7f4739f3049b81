//! What the operations make of sets of values, and what is known of the flags that they set.

ghost use Rattle.std.specs.Prelude.{◌≡◌, Some, None};
ghost use Rattle.value_set.specs.Summing.{single as single_set};
ghost use Rattle.value_bits.specs.declared.tri.Tri.TheVariants.{Zero, Either};
ghost use Rattle.value_bits.specs.Sets.{chosen};
ghost use Rattle.msp430_decode.specs.declared.instr.Width.TheVariants.{Byte, Word as Words};
ghost use Rattle.msp430_decode.specs.declared.instr.SingleOperation.TheVariants.{Sxt};
ghost use Rattle.msp430_chip.specs.Arithmetic.{modulus};
ghost use Rattle.msp430_results.specs.declared.flags.FlagRule.TheVariants.{Difference};
ghost use Rattle.msp430_results.specs.FlagSets as flag_sets;
ghost use Rattle.msp430_results.specs.Words.{values_of, written_word};
ghost use Rattle.msp430_results.specs.Results as results;
ghost use Rattle.msp430_results.specs.Rules as rules;

use crate::carrying::{add_carry, cleared, sub_carry};
use crate::flag_bits::FlagBits;
use crate::flags::{
    FlagRule, all_agree, differences_agree, flags_or, free_overflow, no_flags, shown_flags,
    shown_logic,
};
use crate::sets::Sets;
use entry_value::{Entry, Word};
use msp430_decode::{Operation, SingleOperation, Width};
use value_bits::{Top, Tri, w16};
use value_set::{Form, Vs8, Vs16};

/// The flags of sums, by a rule over the operands.
fn sum_flags<S: Sets>(
    rule: FlagRule,
    set: &S,
    first: &S,
    second: &S,
    carry: Tri,
) -> Option<FlagBits>
    ensures { (S.form set.now, result) ≡ results.sum_made S.width (S.form set.now) (rules.flags_by rule S.width) (S.form first.now) (S.form second.now) (chosen carry) }
{
    let shown = shown_flags(set, Tri::Either, Tri::Either);
    Some(flags_or(rule, first, second, carry, shown))
}

/// The flags of differences.
fn difference_flags<S: Sets>(set: &S, first: &S, second: &S) -> Option<FlagBits>
    ensures { (S.form set.now, result) ≡ results.sum_made S.width (S.form set.now) (rules.flags_by Difference S.width) (S.form first.now) (S.form second.now) (single_set 0) }
{
    if S::is_few(first, second, &S::chosen(Tri::Zero)) {
        return Some(differences_agree(first, second));
    }
    Some(shown_flags(set, Tri::Either, Tri::Either))
}

/// The flags of logic, by a rule over the operands.
fn logic_flags<S: Sets>(
    rule: FlagRule,
    set: &S,
    first: &S,
    second: &S,
    overflow: Tri,
) -> Option<FlagBits>
    ensures { (S.form set.now, result) ≡ results.logic_made S.width (S.form set.now) (rules.flags_by rule S.width) (S.form first.now) (S.form second.now) overflow }
{
    let shown = shown_logic(set, overflow);
    Some(flags_or(rule, first, second, Tri::Zero, shown))
}

/// The flags of decimal sums: V is free, and so are all where a member has a digit above 9.
fn decimal_flags<S: Sets>(first: &S, second: &S, carry: Tri) -> Option<FlagBits>
    ensures { result ≡ (results.decimal_made S.width (S.form first.now) (S.form second.now) carry).1 }
{
    if !S::is_few(first, second, &S::chosen(carry)) {
        return Some(no_flags());
    }
    if !first.are_decimal() || !second.are_decimal() {
        return Some(no_flags());
    }
    Some(free_overflow(all_agree(FlagRule::Decimal, first, second, carry)))
}

/// The result of an operation on two operands, and its flags.
fn double<S: Sets>(operation: Operation, s: &S, d: &S, carry: Tri) -> (S, Option<FlagBits>)
    ensures { (S.form result.0, result.1) ≡ results.double_made operation S.width (S.form s.now) (S.form d.now) carry }
{
    match operation {
        Operation::Mov => (*s, None),
        Operation::Add => {
            let set = d.plus(s);
            (set, sum_flags(FlagRule::Sum, &set, d, s, Tri::Zero))
        }
        Operation::Addc => {
            let set = add_carry(d, s, carry);
            (set, sum_flags(FlagRule::SumCarry, &set, d, s, carry))
        }
        Operation::Subc => {
            let set = sub_carry(d, s, carry);
            (set, sum_flags(FlagRule::DifferenceCarry, &set, d, s, carry))
        }
        Operation::Sub | Operation::Cmp => {
            let set = d.minus(s);
            (set, difference_flags(&set, d, s))
        }
        Operation::Dadd => (d.decimal_plus(s, carry), decimal_flags(d, s, carry)),
        Operation::Bit | Operation::And => {
            let set = d.and(s);
            (set, logic_flags(FlagRule::And, &set, d, s, Tri::Zero))
        }
        Operation::Bic => (cleared(d, s), None),
        Operation::Bis => (d.or(s), None),
        Operation::Xor => {
            let set = d.xor(s);
            (set, logic_flags(FlagRule::Xor, &set, d, s, Tri::Either))
        }
    }
}

/// RRC: V is free.
fn rotated_flags<S: Sets>(set: &S, rotated: &S, carry: Tri) -> Option<FlagBits>
    ensures { result ≡ Some (flag_sets.free_overflow (flag_sets.flags_or (modulus S.width) (results.rotated_flags S.width) (S.form set.now) (single_set 0) (chosen carry) (flag_sets.shown_flags S.width (S.form rotated.now) Either Either))) }
{
    let shown = shown_flags(rotated, Tri::Either, Tri::Either);
    let none = S::chosen(Tri::Zero);
    Some(free_overflow(flags_or(FlagRule::Rotated, set, &none, carry, shown)))
}

/// RRA, which clears V.
fn halved_flags<S: Sets>(set: &S, halved: &S) -> Option<FlagBits>
    ensures { result ≡ Some (flag_sets.flags_or (modulus S.width) (results.halved_flags S.width) (S.form set.now) (single_set 0) (single_set 0) (flag_sets.shown_flags S.width (S.form halved.now) Either Zero)) }
{
    let shown = shown_flags(halved, Tri::Either, Tri::Zero);
    let none = S::chosen(Tri::Zero);
    Some(flags_or(FlagRule::Halved, set, &none, Tri::Zero, shown))
}

/// The result of an operation of both widths on one operand, and its flags.
fn single<S: Sets>(operation: SingleOperation, set: &S, carry: Tri) -> (S, Option<FlagBits>)
    requires { results.HasWidth operation Byte }
    ensures { (S.form result.0, result.1) ≡ results.single_made operation S.width (S.form set.now) carry }
{
    match operation {
        SingleOperation::Rrc => {
            let result = set.shifted(Top::Put(carry));
            (result, rotated_flags(set, &result, carry))
        }
        SingleOperation::Rra => {
            let result = set.shifted(Top::Sign);
            (result, halved_flags(set, &result))
        }
        SingleOperation::Push | SingleOperation::Call => (*set, None),
        SingleOperation::Swpb | SingleOperation::Sxt => unreachable!(),
    }
}

/// The result of SXT, and its flags.
fn extended(set: &Vs16) -> (Vs16, Option<FlagBits>)
    ensures { result ≡ results.single_made Sxt Words set.now Zero }
{
    let result = w16::sign_extend(set);
    let none = Vs16::one(0);
    (
        result,
        logic_flags(FlagRule::Extended, &result, set, &none, Tri::Zero),
    )
}

/// The result of an operation on a word, and its flags: SWPB and SXT work on words alone.
fn single_of_words(operation: SingleOperation, set: &Vs16, carry: Tri) -> (Vs16, Option<FlagBits>)
    ensures { result ≡ results.single_made operation Words set.now carry }
{
    match operation {
        SingleOperation::Swpb => (w16::swap_bytes(set), None),
        SingleOperation::Sxt => extended(set),
        _ => single(operation, set, carry),
    }
}

/// A register added to itself.
fn twice<S: Sets>(set: &S) -> (S, Option<FlagBits>)
    ensures { (S.form result.0, result.1) ≡ results.twice_flags S.width (S.form set.now) }
{
    let sums = set.doubled();
    match set.list_or_run() {
        Form::Values(_) => {
            let none = S::chosen(Tri::Zero);
            (
                sums,
                Some(all_agree(FlagRule::Twice, set, &none, Tri::Zero)),
            )
        }
        Form::Run(_) => (sums, Some(shown_flags(&sums, Tri::Either, Tri::Either))),
    }
}

/// A set of bytes as words: the high byte is 0, and there is no relation.
fn byte_word(set: &Vs8) -> Word
    ensures { result ≡ written_word Byte set.now None }
{
    Word {
        set: w16::pair(set, &Vs8::one(0)),
        entry: None,
    }
}

/// A word as a result of a width, with a relation. A byte has the high byte 0 and no relation.
pub fn kept_word(width: Width, word: &Word, entry: Option<Entry>) -> Word
    ensures { result ≡ written_word width (values_of width word.now) entry }
{
    match width {
        Width::Word => Word {
            set: word.set,
            entry,
        },
        Width::Byte => byte_word(&w16::low(&word.set)),
    }
}

/// The result of an operation on two operands as a word with a relation, and what is known of the flags that it sets, if
/// it sets any. A byte operand is the low byte, and a byte result has the high byte 0 and no relation.
pub fn double_made(
    operation: Operation,
    width: Width,
    source: &Word,
    destination: &Word,
    carry: Tri,
    entry: Option<Entry>,
) -> (Word, Option<FlagBits>)
    ensures word { result.0 ≡ written_word width (results.double_made operation width (values_of width source.now) (values_of width destination.now) carry).0 entry }
    ensures flags { result.1 ≡ (results.double_made operation width (values_of width source.now) (values_of width destination.now) carry).1 }
{
    match width {
        Width::Word => {
            let (set, flags) = double(operation, &source.set, &destination.set, carry);
            (Word { set, entry }, flags)
        }
        Width::Byte => {
            let bytes = w16::low(&destination.set);
            let (set, flags) = double(operation, &w16::low(&source.set), &bytes, carry);
            (byte_word(&set), flags)
        }
    }
}

/// The sum of a register and itself, and its flags, likewise.
pub fn twice_made(width: Width, word: &Word, entry: Option<Entry>) -> (Word, Option<FlagBits>)
    ensures word { result.0 ≡ written_word width (results.twice_flags width (values_of width word.now)).0 entry }
    ensures flags { result.1 ≡ (results.twice_flags width (values_of width word.now)).1 }
{
    match width {
        Width::Word => {
            let (set, flags) = twice(&word.set);
            (Word { set, entry }, flags)
        }
        Width::Byte => {
            let (set, flags) = twice(&w16::low(&word.set));
            (byte_word(&set), flags)
        }
    }
}

/// The result of an operation on one operand, and its flags, likewise. SWPB and SXT work on words alone.
pub fn single_made(
    operation: SingleOperation,
    width: Width,
    word: &Word,
    carry: Tri,
    entry: Option<Entry>,
) -> (Word, Option<FlagBits>)
    requires { results.HasWidth operation width }
    ensures word { result.0 ≡ written_word width (results.single_made operation width (values_of width word.now) carry).0 entry }
    ensures flags { result.1 ≡ (results.single_made operation width (values_of width word.now) carry).1 }
{
    match width {
        Width::Word => {
            let (set, flags) = single_of_words(operation, &word.set, carry);
            (Word { set, entry }, flags)
        }
        Width::Byte => {
            let (set, flags) = single(operation, &w16::low(&word.set), carry);
            (byte_word(&set), flags)
        }
    }
}
