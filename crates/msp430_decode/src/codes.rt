//! The codes of the fields of a first word.

ghost use Rattle.std.specs.Prelude.{◌≡◌, ◌≤◌, ◌<◌};
ghost use Rattle.msp430_decode.specs.Codes.{register_at, operation_code, operation_at, single_code, single_at, condition_code, condition_at, width_code, width_at};

use crate::instr::{Condition, Operation, Register, SingleOperation, Width};

/// The register with a number below 16.
pub fn register_from(code: u16) -> Register
    ensures { result ≡ register_at code }
{
    match code {
        0 => Register::Pc,
        1 => Register::Sp,
        2 => Register::Sr,
        3 => Register::R3,
        4 => Register::R4,
        5 => Register::R5,
        6 => Register::R6,
        7 => Register::R7,
        8 => Register::R8,
        9 => Register::R9,
        10 => Register::R10,
        11 => Register::R11,
        12 => Register::R12,
        13 => Register::R13,
        14 => Register::R14,
        _ => Register::R15,
    }
}

/// The operation with a code from 4 to 15.
pub fn operation_from(code: u16) -> Operation
    ensures { result ≡ operation_at code }
{
    match code {
        4 => Operation::Mov,
        5 => Operation::Add,
        6 => Operation::Addc,
        7 => Operation::Subc,
        8 => Operation::Sub,
        9 => Operation::Cmp,
        10 => Operation::Dadd,
        11 => Operation::Bit,
        12 => Operation::Bic,
        13 => Operation::Bis,
        14 => Operation::Xor,
        _ => Operation::And,
    }
}

/// The operation on one operand with a code below 6.
pub fn single_from(code: u16) -> SingleOperation
    ensures { result ≡ single_at code }
{
    match code {
        0 => SingleOperation::Rrc,
        1 => SingleOperation::Swpb,
        2 => SingleOperation::Rra,
        3 => SingleOperation::Sxt,
        4 => SingleOperation::Push,
        _ => SingleOperation::Call,
    }
}

/// The condition with a code below 8.
pub fn condition_from(code: u16) -> Condition
    ensures { result ≡ condition_at code }
{
    match code {
        0 => Condition::NotEqual,
        1 => Condition::Equal,
        2 => Condition::NoCarry,
        3 => Condition::Carry,
        4 => Condition::Negative,
        5 => Condition::GreaterOrEqual,
        6 => Condition::Less,
        _ => Condition::Always,
    }
}

/// The width with a code below 2.
pub fn width_from(code: u16) -> Width
    ensures { result ≡ width_at code }
{
    match code {
        0 => Width::Word,
        _ => Width::Byte,
    }
}

/// The code of an operation, from 4 to 15.
pub fn code_of_operation(operation: Operation) -> u16
    ensures value { result ≡ operation_code operation }
    ensures below { result < 16 }
{
    match operation {
        Operation::Mov => 4,
        Operation::Add => 5,
        Operation::Addc => 6,
        Operation::Subc => 7,
        Operation::Sub => 8,
        Operation::Cmp => 9,
        Operation::Dadd => 10,
        Operation::Bit => 11,
        Operation::Bic => 12,
        Operation::Bis => 13,
        Operation::Xor => 14,
        Operation::And => 15,
    }
}

/// The code of an operation on one operand, below 6.
pub fn code_of_single(operation: SingleOperation) -> u16
    ensures value { result ≡ single_code operation }
    ensures below { result < 6 }
{
    match operation {
        SingleOperation::Rrc => 0,
        SingleOperation::Swpb => 1,
        SingleOperation::Rra => 2,
        SingleOperation::Sxt => 3,
        SingleOperation::Push => 4,
        SingleOperation::Call => 5,
    }
}

/// The code of a condition, below 8.
pub fn code_of_condition(condition: Condition) -> u16
    ensures value { result ≡ condition_code condition }
    ensures below { result < 8 }
{
    match condition {
        Condition::NotEqual => 0,
        Condition::Equal => 1,
        Condition::NoCarry => 2,
        Condition::Carry => 3,
        Condition::Negative => 4,
        Condition::GreaterOrEqual => 5,
        Condition::Less => 6,
        Condition::Always => 7,
    }
}

/// The code of a width, below 2.
pub fn code_of_width(width: Width) -> u16
    ensures value { result ≡ width_code width }
    ensures below { result < 2 }
{
    match width {
        Width::Word => 0,
        Width::Byte => 1,
    }
}
