//! What the operations make of sets of values and of the known bits of PSW.

ghost use Rattle.std.specs.Prelude.{◌≡◌, ◌<◌};
ghost use Rattle.value_set.specs.Summing.{add, single};
ghost use Rattle.value_bits.specs.Sets.{chosen as chosen_set, combine_or};
ghost use Rattle.mcs51_state.specs.Known.{any_byte, byte_of as byte_with};
ghost use Rattle.mcs51_results.specs.declared.flags.FlagRule.TheVariants.{Adjusted};
ghost use Rattle.mcs51_results.specs.Results as results;
ghost use Rattle.mcs51_results.specs.Rules.{answer_by};

use crate::combining::{NumberRule, add_carry, chosen, combined_or_any, sub_carry};
use crate::flags::{FlagRule, ThreeFlags, known_flag};
use crate::made::{Made, MadePair, Operand};
use entry_value::{Byte, Entry};
use mcs51_decode::{AccumulatorOperation, Logic, Operation};
use mcs51_state::Status;
use value_bits::{Lowest, Top, Tri, w8, w16};
use value_set::{Form, Vs8, Vs16};

/// A byte without a relation.
fn byte_of(set: Vs8) -> Byte
    ensures { result ≡ byte_with set }
{
    Byte { set, entry: None }
}

/// A bit of PSW; the places are those of its bits 2 to 7.
pub(crate) fn bit_in(psw: &Status, place: usize) -> Tri
    requires { place < 6 }
    ensures { result ≡ results.bit_in psw.now place }
{
    psw.bits[place]
}

/// CY.
pub(crate) fn carry_in(psw: &Status) -> Tri
    ensures { result ≡ results.carry_in psw.now }
{
    bit_in(psw, 5)
}

/// AC.
fn half_carry_in(psw: &Status) -> Tri
    ensures { result ≡ results.half_carry_in psw.now }
{
    bit_in(psw, 4)
}

/// CY, AC and OV are set, and the relation is dropped.
fn flagged(carry: Tri, half: Tri, overflow: Tri, psw: &Status) -> Status
    ensures { result ≡ results.flagged carry half overflow psw.now }
{
    Status {
        bits: [
            overflow,
            bit_in(psw, 1),
            bit_in(psw, 2),
            bit_in(psw, 3),
            half,
            carry,
        ],
        entry: None,
    }
}

/// CY is set, and the relation is dropped.
pub(crate) fn carried(carry: Tri, psw: &Status) -> Status
    ensures { result ≡ results.carried carry psw.now }
{
    Status {
        bits: [
            bit_in(psw, 0),
            bit_in(psw, 1),
            bit_in(psw, 2),
            bit_in(psw, 3),
            bit_in(psw, 4),
            carry,
        ],
        entry: None,
    }
}

/// The bytes that an operand may be.
pub(crate) fn set_of(operand: &Operand) -> Vs8
    ensures { result ≡ results.set_of operand.now }
{
    match operand {
        Operand::Constant(value) => Vs8::one(*value),
        Operand::Among(set) => *set,
    }
}

/// The flags of sums.
const SUM_RULES: ThreeFlags = ThreeFlags {
    carry: FlagRule::Carry,
    half: FlagRule::HalfCarry,
    overflow: FlagRule::SumOverflow,
};

/// The flags of differences.
const DIFFERENCE_RULES: ThreeFlags = ThreeFlags {
    carry: FlagRule::Borrow,
    half: FlagRule::HalfBorrow,
    overflow: FlagRule::DifferenceOverflow,
};

/// The flags of a number added to itself.
const TWICE_RULES: ThreeFlags = ThreeFlags {
    carry: FlagRule::TwiceCarry,
    half: FlagRule::TwiceHalfCarry,
    overflow: FlagRule::TwiceOverflow,
};

/// CY, AC and OV by three rules: each combination is worked out once.
fn three_flags(rules: ThreeFlags, a: &Vs8, b: &Vs8, carry: Tri, psw: &Status) -> Status
    ensures { result ≡ results.three_flags rules a.now b.now (chosen_set carry) psw.now }
{
    let known = w8::all_agreed(&rules, a, b, carry);
    flagged(known.first, known.second, known.third, psw)
}

/// ADD.
fn added(a: &Byte, b: &Vs8, psw: &Status) -> Made
    ensures a { result.a ≡ byte_with (add 256 a.now.set b.now) }
    ensures psw { result.psw ≡ results.sum_flags a.now.set b.now (single 0) psw.now }
{
    Made {
        a: byte_of(a.set.add(b)),
        psw: three_flags(SUM_RULES, &a.set, b, Tri::Zero, psw),
    }
}

/// ADDC.
fn added_with_carry(a: &Byte, b: &Vs8, psw: &Status) -> Made
    ensures a { result.a ≡ byte_with (results.add_carry a.now.set b.now (results.carry_in psw.now)) }
    ensures psw { result.psw ≡ results.sum_flags a.now.set b.now (chosen_set (results.carry_in psw.now)) psw.now }
{
    let carry = carry_in(psw);
    Made {
        a: byte_of(add_carry(&a.set, b, carry)),
        psw: three_flags(SUM_RULES, &a.set, b, carry, psw),
    }
}

/// SUBB.
fn subtracted(a: &Byte, b: &Vs8, psw: &Status) -> Made
    ensures a { result.a ≡ byte_with (results.sub_carry a.now.set b.now (results.carry_in psw.now)) }
    ensures psw { result.psw ≡ results.difference_flags a.now.set b.now (chosen_set (results.carry_in psw.now)) psw.now }
{
    let carry = carry_in(psw);
    Made {
        a: byte_of(sub_carry(&a.set, b, carry)),
        psw: three_flags(DIFFERENCE_RULES, &a.set, b, carry, psw),
    }
}

/// A relation behind a logic operation: AND and OR with a constant mask it, and all else drops it.
pub(crate) fn masked_entry(
    operation: Logic,
    operand: &Operand,
    entry: Option<Entry>,
) -> Option<Entry>
    ensures { result ≡ results.masked_entry operation operand.now entry }
{
    match (operation, operand, entry) {
        (Logic::Orl, Operand::Constant(mask), Some(entry)) => Some(entry.mask_or(*mask as u16)),
        (Logic::Anl, Operand::Constant(mask), Some(entry)) => Some(entry.mask_and(*mask as u16)),
        _ => None,
    }
}

/// ORL, ANL or XRL of a byte and an operand. AND and OR with a constant mask the byte's relation, and all else drops it.
pub fn masked_made(operation: Logic, byte: &Byte, operand: &Operand) -> Byte
    ensures { result ≡ results.masked_made operation byte.now operand.now }
{
    let other = set_of(operand);
    let set = match operation {
        Logic::Orl => w8::or(&byte.set, &other),
        Logic::Anl => w8::and(&byte.set, &other),
        Logic::Xrl => w8::xor(&byte.set, &other),
    };
    Byte {
        set,
        entry: masked_entry(operation, operand, byte.entry),
    }
}

/// The accumulator and PSW behind an operation on the accumulator and an operand.
pub fn accumulated_made(operation: Operation, a: &Byte, operand: &Operand, psw: &Status) -> Made
    ensures { result ≡ results.accumulated_made operation a.now operand.now psw.now }
{
    match operation {
        Operation::Add => added(a, &set_of(operand), psw),
        Operation::Addc => added_with_carry(a, &set_of(operand), psw),
        Operation::Subb => subtracted(a, &set_of(operand), psw),
        Operation::Orl => Made {
            a: masked_made(Logic::Orl, a, operand),
            psw: *psw,
        },
        Operation::Anl => Made {
            a: masked_made(Logic::Anl, a, operand),
            psw: *psw,
        },
        Operation::Xrl => Made {
            a: masked_made(Logic::Xrl, a, operand),
            psw: *psw,
        },
    }
}

/// The flags of the accumulator added to itself: of a run nothing is known.
fn twice_flags(a: &Vs8, psw: &Status) -> Status
    ensures { result ≡ results.twice_flags a.now psw.now }
{
    match a.form() {
        Form::Values(_) => three_flags(TWICE_RULES, a, &Vs8::one(0), Tri::Zero, psw),
        Form::Run(_) => flagged(Tri::Either, Tri::Either, Tri::Either, psw),
    }
}

/// The accumulator and PSW behind an ADD of the accumulator to itself.
pub fn twice_made(a: &Byte, psw: &Status) -> Made
    ensures { result ≡ results.twice_made a.now psw.now }
{
    Made {
        a: byte_of(a.set.twice()),
        psw: twice_flags(&a.set, psw),
    }
}

/// INC of a byte.
pub fn increased(byte: &Byte) -> Byte
    ensures { result ≡ results.increased byte.now }
{
    byte_of(byte.set.add(&Vs8::one(1)))
}

/// DEC of a byte.
pub fn decreased(byte: &Byte) -> Byte
    ensures { result ≡ results.decreased byte.now }
{
    byte_of(byte.set.sub(&Vs8::one(1)))
}

/// DPL and DPH behind INC DPTR.
pub fn pointer_increased(dpl: &Byte, dph: &Byte) -> (Byte, Byte)
    ensures { result ≡ results.pointer_increased dpl.now dph.now }
{
    let words = w16::pair(&dpl.set, &dph.set).add(&Vs16::one(1));
    (byte_of(w16::low(&words)), byte_of(w16::high(&words)))
}

/// The accumulator behind an operation on it alone.
fn changed_set(operation: AccumulatorOperation, a: &Vs8, carry: Tri, half: Tri) -> Vs8
    ensures { result ≡ results.changed_set operation a.now carry half }
{
    match operation {
        AccumulatorOperation::Rr => w8::shift_right(a, Top::Low),
        AccumulatorOperation::Rrc => w8::shift_right(a, Top::Put(carry)),
        AccumulatorOperation::Rl => w8::shift_left(a, Lowest::High),
        AccumulatorOperation::Rlc => w8::shift_left(a, Lowest::Given(carry)),
        AccumulatorOperation::Swap => w8::swap_digits(a),
        AccumulatorOperation::Da => w8::decimal_adjust(a, carry, half),
        AccumulatorOperation::Clr => Vs8::one(0),
        AccumulatorOperation::Cpl => Vs8::one(0xFF).sub(a),
    }
}

/// What is known of CY behind DA.
fn adjusted_carry(a: &Vs8, carry: Tri, half: Tri) -> Tri
    ensures { result ≡ results.known_flag Adjusted a.now (chosen_set carry) (chosen_set half) }
{
    known_flag(FlagRule::Adjusted, a, &chosen(carry), half)
}

/// What is known of a bit of the accumulator that a rotation puts into CY.
fn rotated_carry(rule: FlagRule, a: &Vs8) -> Tri
    ensures { result ≡ results.known_flag rule a.now (single 0) (single 0) }
{
    known_flag(rule, a, &Vs8::one(0), Tri::Zero)
}

/// PSW behind an operation on the accumulator alone.
fn changed_flags(operation: AccumulatorOperation, a: &Vs8, psw: &Status) -> Status
    ensures { result ≡ results.changed_flags operation a.now psw.now }
{
    match operation {
        AccumulatorOperation::Rrc => carried(rotated_carry(FlagRule::LowestBit, a), psw),
        AccumulatorOperation::Rlc => carried(rotated_carry(FlagRule::HighestBit, a), psw),
        AccumulatorOperation::Da => {
            carried(adjusted_carry(a, carry_in(psw), half_carry_in(psw)), psw)
        }
        _ => *psw,
    }
}

/// The accumulator and PSW behind an operation on the accumulator alone.
pub fn changed_made(operation: AccumulatorOperation, a: &Byte, psw: &Status) -> Made
    ensures { result ≡ results.changed_made operation a.now psw.now }
{
    Made {
        a: byte_of(changed_set(operation, &a.set, carry_in(psw), half_carry_in(psw))),
        psw: changed_flags(operation, &a.set, psw),
    }
}

/// The accumulator, B and PSW behind MUL.
pub fn multiplied_made(a: &Byte, b: &Byte, psw: &Status) -> MadePair
    ensures { result ≡ results.multiplied_made a.now b.now psw.now }
{
    let overflow = known_flag(FlagRule::Exceeding, &a.set, &b.set, Tri::Zero);
    MadePair {
        a: byte_of(combined_or_any(NumberRule::ProductLow, &a.set, &b.set)),
        b: byte_of(combined_or_any(NumberRule::ProductHigh, &a.set, &b.set)),
        psw: flagged(Tri::Zero, half_carry_in(psw), overflow, psw),
    }
}

/// Quotients or remainders: any byte where the divisor may be 0.
fn divided_set(rule: NumberRule, a: &Vs8, b: &Vs8) -> Vs8
    ensures { result ≡ results.divided_set (combine_or 256 (answer_by rule) a.now b.now (single 0) any_byte) b.now }
{
    if Vs8::one(0).within(b) {
        return Vs8::any();
    }
    combined_or_any(rule, a, b)
}

/// The accumulator, B and PSW behind DIV. Where B may be 0 the results are any bytes.
pub fn divided_made(a: &Byte, b: &Byte, psw: &Status) -> MadePair
    ensures { result ≡ results.divided_made a.now b.now psw.now }
{
    let overflow = known_flag(FlagRule::ByZero, &a.set, &b.set, Tri::Zero);
    MadePair {
        a: byte_of(divided_set(NumberRule::Quotient, &a.set, &b.set)),
        b: byte_of(divided_set(NumberRule::Remainder, &a.set, &b.set)),
        psw: flagged(Tri::Zero, half_carry_in(psw), overflow, psw),
    }
}
