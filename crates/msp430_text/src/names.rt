//! The names of registers, operations, conditions and constants.

ghost use Rattle.std.specs.Prelude.{◌≡◌, ◌≤◌, length};
ghost use Rattle.msp430_text.specs.Text.{register_text, operation_text, single_text, condition_text, width_text, constant_text};

use msp430_decode::{Condition, Constant, Operation, Register, SingleOperation, Width};

/// A register's name.
pub fn register_name(register: Register) -> &'static str
    ensures value { result.now ≡ register_text register }
    ensures short { length result.now ≤ 3 }
{
    match register {
        Register::Pc => "PC",
        Register::Sp => "SP",
        Register::Sr => "SR",
        Register::R3 => "R3",
        Register::R4 => "R4",
        Register::R5 => "R5",
        Register::R6 => "R6",
        Register::R7 => "R7",
        Register::R8 => "R8",
        Register::R9 => "R9",
        Register::R10 => "R10",
        Register::R11 => "R11",
        Register::R12 => "R12",
        Register::R13 => "R13",
        Register::R14 => "R14",
        Register::R15 => "R15",
    }
}

/// The mnemonic of an operation.
pub fn operation_name(operation: Operation) -> &'static str
    ensures value { result.now ≡ operation_text operation }
    ensures short { length result.now ≤ 4 }
{
    match operation {
        Operation::Mov => "MOV",
        Operation::Add => "ADD",
        Operation::Addc => "ADDC",
        Operation::Subc => "SUBC",
        Operation::Sub => "SUB",
        Operation::Cmp => "CMP",
        Operation::Dadd => "DADD",
        Operation::Bit => "BIT",
        Operation::Bic => "BIC",
        Operation::Bis => "BIS",
        Operation::Xor => "XOR",
        Operation::And => "AND",
    }
}

/// The mnemonic of an operation on one operand.
pub fn single_name(operation: SingleOperation) -> &'static str
    ensures value { result.now ≡ single_text operation }
    ensures short { length result.now ≤ 4 }
{
    match operation {
        SingleOperation::Rrc => "RRC",
        SingleOperation::Swpb => "SWPB",
        SingleOperation::Rra => "RRA",
        SingleOperation::Sxt => "SXT",
        SingleOperation::Push => "PUSH",
        SingleOperation::Call => "CALL",
    }
}

/// The mnemonic of a jump.
pub fn condition_name(condition: Condition) -> &'static str
    ensures value { result.now ≡ condition_text condition }
    ensures short { length result.now ≤ 3 }
{
    match condition {
        Condition::NotEqual => "JNE",
        Condition::Equal => "JEQ",
        Condition::NoCarry => "JNC",
        Condition::Carry => "JC",
        Condition::Negative => "JN",
        Condition::GreaterOrEqual => "JGE",
        Condition::Less => "JL",
        Condition::Always => "JMP",
    }
}

/// The suffix of a width.
pub fn width_suffix(width: Width) -> &'static str
    ensures value { result.now ≡ width_text width }
    ensures short { length result.now ≤ 2 }
{
    match width {
        Width::Word => "",
        Width::Byte => ".B",
    }
}

/// A generated constant.
pub fn constant_name(constant: Constant) -> &'static str
    ensures value { result.now ≡ constant_text constant }
    ensures short { length result.now ≤ 3 }
{
    match constant {
        Constant::Zero => "#0",
        Constant::One => "#1",
        Constant::Two => "#2",
        Constant::Four => "#4",
        Constant::Eight => "#8",
        Constant::MinusOne => "#-1",
    }
}
