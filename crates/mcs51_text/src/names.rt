//! The names of registers and operations.

ghost use Rattle.std.specs.Prelude.{◌≡◌, ◌≤◌, length};
ghost use Rattle.mcs51_text.specs.Text.{register_text, pointer_text, operation_text, logic_text, accumulator_text, carry_text, carry_bit_text, bit_text, bit_end, condition_text, test_text, base_text};

use mcs51_decode::{
    AccumulatorOperation, BitOperation, BitTest, CarryByBit, CarryOperation, CodeBase, Condition,
    Logic, Operation, Pointer, Register,
};

/// A working register's name.
pub fn register_name(register: Register) -> &'static str
    ensures value { result.now ≡ register_text register }
    ensures short { length result.now ≤ 2 }
{
    match register {
        Register::R0 => "R0",
        Register::R1 => "R1",
        Register::R2 => "R2",
        Register::R3 => "R3",
        Register::R4 => "R4",
        Register::R5 => "R5",
        Register::R6 => "R6",
        Register::R7 => "R7",
    }
}

/// RAM at a working register.
pub fn pointer_name(pointer: Pointer) -> &'static str
    ensures value { result.now ≡ pointer_text pointer }
    ensures short { length result.now ≤ 3 }
{
    match pointer {
        Pointer::R0 => "@R0",
        Pointer::R1 => "@R1",
    }
}

/// An operation on A, up to its source.
pub fn operation_name(operation: Operation) -> &'static str
    ensures value { result.now ≡ operation_text operation }
    ensures short { length result.now ≤ 7 }
{
    match operation {
        Operation::Add => "ADD A,",
        Operation::Addc => "ADDC A,",
        Operation::Orl => "ORL A,",
        Operation::Anl => "ANL A,",
        Operation::Xrl => "XRL A,",
        Operation::Subb => "SUBB A,",
    }
}

/// An operation on a direct byte, up to it.
pub fn logic_name(operation: Logic) -> &'static str
    ensures value { result.now ≡ logic_text operation }
    ensures short { length result.now ≤ 4 }
{
    match operation {
        Logic::Orl => "ORL ",
        Logic::Anl => "ANL ",
        Logic::Xrl => "XRL ",
    }
}

/// An operation on A alone.
pub fn accumulator_name(operation: AccumulatorOperation) -> &'static str
    ensures value { result.now ≡ accumulator_text operation }
    ensures short { length result.now ≤ 6 }
{
    match operation {
        AccumulatorOperation::Rr => "RR A",
        AccumulatorOperation::Rrc => "RRC A",
        AccumulatorOperation::Rl => "RL A",
        AccumulatorOperation::Rlc => "RLC A",
        AccumulatorOperation::Swap => "SWAP A",
        AccumulatorOperation::Da => "DA A",
        AccumulatorOperation::Clr => "CLR A",
        AccumulatorOperation::Cpl => "CPL A",
    }
}

/// An operation on C alone.
pub fn carry_name(operation: CarryOperation) -> &'static str
    ensures value { result.now ≡ carry_text operation }
    ensures short { length result.now ≤ 6 }
{
    match operation {
        CarryOperation::Cpl => "CPL C",
        CarryOperation::Clr => "CLR C",
        CarryOperation::Setb => "SETB C",
    }
}

/// An operation on C and a bit, up to the bit.
pub fn carry_bit_name(operation: CarryByBit) -> &'static str
    ensures value { result.now ≡ carry_bit_text operation }
    ensures short { length result.now ≤ 7 }
{
    match operation {
        CarryByBit::Orl => "ORL C,",
        CarryByBit::Anl => "ANL C,",
        CarryByBit::OrlComplement => "ORL C,/",
        CarryByBit::AnlComplement => "ANL C,/",
        CarryByBit::Mov => "MOV C,",
    }
}

/// An operation on a bit, up to the bit.
pub fn bit_name(operation: BitOperation) -> &'static str
    ensures value { result.now ≡ bit_text operation }
    ensures short { length result.now ≤ 5 }
{
    match operation {
        BitOperation::MovCarry => "MOV ",
        BitOperation::Cpl => "CPL ",
        BitOperation::Clr => "CLR ",
        BitOperation::Setb => "SETB ",
    }
}

/// What follows the bit.
pub fn bit_suffix(operation: BitOperation) -> &'static str
    ensures value { result.now ≡ bit_end operation }
    ensures short { length result.now ≤ 2 }
{
    match operation {
        BitOperation::MovCarry => ",C",
        BitOperation::Cpl => "",
        BitOperation::Clr => "",
        BitOperation::Setb => "",
    }
}

/// The mnemonic of a jump.
pub fn condition_name(condition: Condition) -> &'static str
    ensures value { result.now ≡ condition_text condition }
    ensures short { length result.now ≤ 5 }
{
    match condition {
        Condition::Carry => "JC ",
        Condition::NoCarry => "JNC ",
        Condition::Zero => "JZ ",
        Condition::NotZero => "JNZ ",
        Condition::Always => "SJMP ",
    }
}

/// The mnemonic of a jump that looks at a bit.
pub fn test_name(test: BitTest) -> &'static str
    ensures value { result.now ≡ test_text test }
    ensures short { length result.now ≤ 4 }
{
    match test {
        BitTest::SetAndClear => "JBC ",
        BitTest::Set => "JB ",
        BitTest::Clear => "JNB ",
    }
}

/// MOVC.
pub fn base_name(base: CodeBase) -> &'static str
    ensures value { result.now ≡ base_text base }
    ensures short { length result.now ≤ 14 }
{
    match base {
        CodeBase::ProgramCounter => "MOVC A,@A+PC",
        CodeBase::DataPointer => "MOVC A,@A+DPTR",
    }
}
