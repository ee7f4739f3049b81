//! What instructions make of numbers, and what they do with flags.

ghost use Rattle.std.specs.Prelude.{◌≡◌, ◌<◌, ◌≤◌, IfSome};
ghost use Rattle.msp430_decode.specs.declared.instr.Source.{Source as ASource};
ghost use Rattle.msp430_decode.specs.Table.{AreSingle};
ghost use Rattle.msp430_chip.specs.Arithmetic as arithmetic;
ghost use Rattle.choosing.specs.Choosing.{asked};

use crate::decimal::decimal;
use crate::results::{
    Made, complement, exchanged, exclusive, halved, logic, rotated, sign_extended, sum,
};
use choosing::Unused;
use msp430_chip::Flags;
use msp430_decode::{Operation, SingleOperation, Width};

/// The result of an instruction on two operands, with C as it was.
pub(crate) fn result_of(
    operation: Operation,
    width: Width,
    source: u16,
    destination: u16,
    carry: u16,
    choices: &mut Unused,
) -> Option<Made>
    requires source { source < arithmetic.modulus width }
    requires destination { destination < arithmetic.modulus width }
    requires carry { carry ≤ 1 }
    ensures exact { asked result choices.new ≡ arithmetic.result_of operation width source destination carry choices.old }
    ensures below { IfSome result (λ made. made.0 < arithmetic.modulus width) }
{
    match operation {
        Operation::Mov => Some((source, None)),
        Operation::Add => Some(sum(width, destination, source, 0)),
        Operation::Addc => Some(sum(width, destination, source, carry)),
        Operation::Subc => Some(sum(width, destination, complement(width, source), carry)),
        Operation::Sub | Operation::Cmp => Some(sum(
            width,
            destination,
            complement(width, source),
            1,
        )),
        Operation::Dadd => decimal(width, destination, source, carry, choices),
        Operation::Bit | Operation::And => Some(logic(width, destination & source)),
        Operation::Bic => Some((destination & complement(width, source), None)),
        Operation::Bis => Some((destination | source, None)),
        Operation::Xor => Some(exclusive(width, destination, source)),
    }
}

/// The result of an instruction on one operand, with C as it was. PUSH and CALL have none.
pub(crate) fn single_result(
    operation: SingleOperation,
    width: Width,
    x: u16,
    carry: u16,
    choices: &mut Unused,
) -> Option<Made>
    requires x { x < arithmetic.modulus width }
    requires carry { carry ≤ 1 }
    ensures exact { asked result choices.new ≡ arithmetic.single_result operation width x carry choices.old }
    ensures below { (operand : ASource) → AreSingle operation width operand
        → IfSome result (λ made. made.0 < arithmetic.modulus width) }
{
    match operation {
        SingleOperation::Rrc => rotated(width, x, carry, choices),
        SingleOperation::Swpb => Some((exchanged(x), None)),
        SingleOperation::Rra => Some(halved(width, x)),
        SingleOperation::Sxt => Some(logic(width, sign_extended(x))),
        SingleOperation::Push | SingleOperation::Call => Some((x, None)),
    }
}

/// MOV, BIC and BIS leave the flags as they are.
pub(crate) fn sets_flags(operation: Operation) -> bool
    ensures { result ≡ arithmetic.sets_flags operation }
{
    !matches!(operation, Operation::Mov | Operation::Bic | Operation::Bis)
}

/// RRC, RRA and SXT set flags.
pub(crate) fn single_sets_flags(operation: SingleOperation) -> bool
    ensures { result ≡ arithmetic.single_sets_flags operation }
{
    matches!(
        operation,
        SingleOperation::Rrc | SingleOperation::Rra | SingleOperation::Sxt
    )
}

/// CMP and BIT leave their destination as it is.
pub(crate) fn writes_result(operation: Operation) -> bool
    ensures { result ≡ arithmetic.writes_result operation }
{
    !matches!(operation, Operation::Cmp | Operation::Bit)
}

/// MOV doesn't read its destination.
pub(crate) fn reads_destination(operation: Operation) -> bool
    ensures { result ≡ arithmetic.reads_destination operation }
{
    !matches!(operation, Operation::Mov)
}

fn bit_from(flag: bool) -> u16
    ensures value { result ≡ arithmetic.bit_from flag }
    ensures bit { result ≤ 1 }
{
    if flag { 1 } else { 0 }
}

/// SR with these flags; its bits 3 to 7 stay.
pub(crate) fn with_flags(status: u16, flags: Flags) -> u16
    ensures value { result ≡ arithmetic.with_flags status flags }
    ensures below { result < 512 }
{
    bit_from(flags.carry)
        + 2 * bit_from(flags.zero)
        + 4 * bit_from(flags.negative)
        + 8 * (status / 8 % 32)
        + 256 * bit_from(flags.overflow)
}

/// SR with the flags that a result sets, if it sets any.
pub(crate) fn with_made_flags(status: u16, flags: Option<Flags>) -> u16
    ensures { result ≡ arithmetic.with_made_flags status flags }
{
    match flags {
        None => status,
        Some(flags) => with_flags(status, flags),
    }
}
