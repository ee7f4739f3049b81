//! The opcode map, column by column: the low digit of an opcode is its column, and the high one its line.

ghost use Rattle.std.specs.Prelude.{◌≡◌, ◌≤◌, ◌<◌, ◌+◌, ◌*◌, ◌/◌, false};
ghost use Rattle.mcs51_decode.specs.Table.{column_0, column_1, column_2, column_3, column_4, column_5, line_D, working_columns, working_at, row_in, row_at, is_excluded};

use crate::instr::{
    AccumulatorOperation, BitOperation, BitTest, CarryByBit, CarryOperation, CodeBase, Comparison,
    Condition, Counter, External, Instr, Logic, Mask, Memory, Operation, Place, Pointer, Register,
    Source, Working,
};

/// The word of two bytes, the high one first.
fn word_of(high: u8, low: u8) -> u16
    ensures { result ≡ 256 * high + low }
{
    256 * high as u16 + low as u16
}

#[tactic(auto, unfolding(crate::specs::Table::column_0))]
fn row_of_column_0(line: u8, first: u8, second: u8) -> (u8, Instr)
    requires { line < 16 }
    ensures { result ≡ column_0 line first second }
{
    match line {
        0x0 => (1, Instr::Nop),
        0x1 => (
            3,
            Instr::JumpOnBit {
                test: BitTest::SetAndClear,
                bit: first,
                rel: second,
            },
        ),
        0x2 => (
            3,
            Instr::JumpOnBit {
                test: BitTest::Set,
                bit: first,
                rel: second,
            },
        ),
        0x3 => (
            3,
            Instr::JumpOnBit {
                test: BitTest::Clear,
                bit: first,
                rel: second,
            },
        ),
        0x4 => (
            2,
            Instr::JumpOn {
                condition: Condition::Carry,
                rel: first,
            },
        ),
        0x5 => (
            2,
            Instr::JumpOn {
                condition: Condition::NoCarry,
                rel: first,
            },
        ),
        0x6 => (
            2,
            Instr::JumpOn {
                condition: Condition::Zero,
                rel: first,
            },
        ),
        0x7 => (
            2,
            Instr::JumpOn {
                condition: Condition::NotZero,
                rel: first,
            },
        ),
        0x8 => (
            2,
            Instr::JumpOn {
                condition: Condition::Always,
                rel: first,
            },
        ),
        0x9 => (3, Instr::LoadDataPointer(word_of(first, second))),
        0xA => (
            2,
            Instr::CarryBit {
                operation: CarryByBit::OrlComplement,
                bit: first,
            },
        ),
        0xB => (
            2,
            Instr::CarryBit {
                operation: CarryByBit::AnlComplement,
                bit: first,
            },
        ),
        0xC => (2, Instr::Push(first)),
        0xD => (2, Instr::Pop(first)),
        0xE => (1, Instr::ReadExternal(External::DataPointer)),
        _ => (1, Instr::WriteExternal(External::DataPointer)),
    }
}

#[tactic(auto, unfolding(crate::specs::Table::column_1))]
fn row_of_column_1(line: u8, first: u8) -> (u8, Instr)
    requires { line < 16 }
    ensures { result ≡ column_1 line first }
{
    let target = (line / 2) as u16 * 256 + first as u16;
    if line % 2 == 0 {
        (2, Instr::AbsoluteJump(target))
    } else {
        (2, Instr::AbsoluteCall(target))
    }
}

#[tactic(auto, unfolding(crate::specs::Table::column_2))]
fn row_of_column_2(line: u8, first: u8, second: u8) -> (u8, Instr)
    requires { line < 16 }
    ensures { result ≡ column_2 line first second }
{
    match line {
        0x0 => (3, Instr::LongJump(word_of(first, second))),
        0x1 => (3, Instr::LongCall(word_of(first, second))),
        0x2 => (1, Instr::Return),
        0x3 => (1, Instr::ReturnFromInterrupt),
        0x4 => (
            2,
            Instr::DirectLogic {
                operation: Logic::Orl,
                direct: first,
                mask: Mask::Accumulator,
            },
        ),
        0x5 => (
            2,
            Instr::DirectLogic {
                operation: Logic::Anl,
                direct: first,
                mask: Mask::Accumulator,
            },
        ),
        0x6 => (
            2,
            Instr::DirectLogic {
                operation: Logic::Xrl,
                direct: first,
                mask: Mask::Accumulator,
            },
        ),
        0x7 => (
            2,
            Instr::CarryBit {
                operation: CarryByBit::Orl,
                bit: first,
            },
        ),
        0x8 => (
            2,
            Instr::CarryBit {
                operation: CarryByBit::Anl,
                bit: first,
            },
        ),
        0x9 => (
            2,
            Instr::ChangeBit {
                operation: BitOperation::MovCarry,
                bit: first,
            },
        ),
        0xA => (
            2,
            Instr::CarryBit {
                operation: CarryByBit::Mov,
                bit: first,
            },
        ),
        0xB => (
            2,
            Instr::ChangeBit {
                operation: BitOperation::Cpl,
                bit: first,
            },
        ),
        0xC => (
            2,
            Instr::ChangeBit {
                operation: BitOperation::Clr,
                bit: first,
            },
        ),
        0xD => (
            2,
            Instr::ChangeBit {
                operation: BitOperation::Setb,
                bit: first,
            },
        ),
        0xE => (1, Instr::ReadExternal(External::Indirect(Pointer::R0))),
        _ => (1, Instr::WriteExternal(External::Indirect(Pointer::R0))),
    }
}

#[tactic(auto, unfolding(crate::specs::Table::column_3))]
fn row_of_column_3(line: u8, first: u8, second: u8) -> (u8, Instr)
    requires { line < 16 }
    ensures { result ≡ column_3 line first second }
{
    match line {
        0x0 => (1, Instr::ChangeAccumulator(AccumulatorOperation::Rr)),
        0x1 => (1, Instr::ChangeAccumulator(AccumulatorOperation::Rrc)),
        0x2 => (1, Instr::ChangeAccumulator(AccumulatorOperation::Rl)),
        0x3 => (1, Instr::ChangeAccumulator(AccumulatorOperation::Rlc)),
        0x4 => (
            3,
            Instr::DirectLogic {
                operation: Logic::Orl,
                direct: first,
                mask: Mask::Immediate(second),
            },
        ),
        0x5 => (
            3,
            Instr::DirectLogic {
                operation: Logic::Anl,
                direct: first,
                mask: Mask::Immediate(second),
            },
        ),
        0x6 => (
            3,
            Instr::DirectLogic {
                operation: Logic::Xrl,
                direct: first,
                mask: Mask::Immediate(second),
            },
        ),
        0x7 => (1, Instr::JumpIndirect),
        0x8 => (1, Instr::MoveCode(CodeBase::ProgramCounter)),
        0x9 => (1, Instr::MoveCode(CodeBase::DataPointer)),
        0xA => (1, Instr::IncrementDataPointer),
        0xB => (1, Instr::ChangeCarry(CarryOperation::Cpl)),
        0xC => (1, Instr::ChangeCarry(CarryOperation::Clr)),
        0xD => (1, Instr::ChangeCarry(CarryOperation::Setb)),
        0xE => (1, Instr::ReadExternal(External::Indirect(Pointer::R1))),
        _ => (1, Instr::WriteExternal(External::Indirect(Pointer::R1))),
    }
}

#[tactic(auto, unfolding(crate::specs::Table::column_4))]
fn row_of_column_4(line: u8, first: u8, second: u8) -> (u8, Instr)
    requires { line < 16 }
    ensures { result ≡ column_4 line first second }
{
    match line {
        0x0 => (1, Instr::Increment(Place::Accumulator)),
        0x1 => (1, Instr::Decrement(Place::Accumulator)),
        0x2 => (
            2,
            Instr::Accumulate {
                operation: Operation::Add,
                source: Source::Immediate(first),
            },
        ),
        0x3 => (
            2,
            Instr::Accumulate {
                operation: Operation::Addc,
                source: Source::Immediate(first),
            },
        ),
        0x4 => (
            2,
            Instr::Accumulate {
                operation: Operation::Orl,
                source: Source::Immediate(first),
            },
        ),
        0x5 => (
            2,
            Instr::Accumulate {
                operation: Operation::Anl,
                source: Source::Immediate(first),
            },
        ),
        0x6 => (
            2,
            Instr::Accumulate {
                operation: Operation::Xrl,
                source: Source::Immediate(first),
            },
        ),
        0x7 => (
            2,
            Instr::MoveImmediate {
                to: Place::Accumulator,
                value: first,
            },
        ),
        0x8 => (1, Instr::Divide),
        0x9 => (
            2,
            Instr::Accumulate {
                operation: Operation::Subb,
                source: Source::Immediate(first),
            },
        ),
        0xA => (1, Instr::Multiply),
        0xB => (
            3,
            Instr::CompareJump {
                comparison: Comparison::AccumulatorImmediate(first),
                rel: second,
            },
        ),
        0xC => (1, Instr::ChangeAccumulator(AccumulatorOperation::Swap)),
        0xD => (1, Instr::ChangeAccumulator(AccumulatorOperation::Da)),
        0xE => (1, Instr::ChangeAccumulator(AccumulatorOperation::Clr)),
        _ => (1, Instr::ChangeAccumulator(AccumulatorOperation::Cpl)),
    }
}

#[tactic(auto, unfolding(crate::specs::Table::column_5))]
fn row_of_column_5(line: u8, first: u8, second: u8) -> (u8, Instr)
    requires { line < 16 }
    ensures { result ≡ column_5 line first second }
{
    match line {
        0x0 => (2, Instr::Increment(Place::Memory(Memory::Direct(first)))),
        0x1 => (2, Instr::Decrement(Place::Memory(Memory::Direct(first)))),
        0x2 => (
            2,
            Instr::Accumulate {
                operation: Operation::Add,
                source: Source::Memory(Memory::Direct(first)),
            },
        ),
        0x3 => (
            2,
            Instr::Accumulate {
                operation: Operation::Addc,
                source: Source::Memory(Memory::Direct(first)),
            },
        ),
        0x4 => (
            2,
            Instr::Accumulate {
                operation: Operation::Orl,
                source: Source::Memory(Memory::Direct(first)),
            },
        ),
        0x5 => (
            2,
            Instr::Accumulate {
                operation: Operation::Anl,
                source: Source::Memory(Memory::Direct(first)),
            },
        ),
        0x6 => (
            2,
            Instr::Accumulate {
                operation: Operation::Xrl,
                source: Source::Memory(Memory::Direct(first)),
            },
        ),
        0x7 => (
            3,
            Instr::MoveImmediate {
                to: Place::Memory(Memory::Direct(first)),
                value: second,
            },
        ),
        0x8 => (
            3,
            Instr::MoveToDirect {
                to: second,
                from: Memory::Direct(first),
            },
        ),
        0x9 => (
            2,
            Instr::Accumulate {
                operation: Operation::Subb,
                source: Source::Memory(Memory::Direct(first)),
            },
        ),
        0xB => (
            3,
            Instr::CompareJump {
                comparison: Comparison::AccumulatorDirect(first),
                rel: second,
            },
        ),
        0xC => (2, Instr::Exchange(Memory::Direct(first))),
        0xD => (
            3,
            Instr::DecrementJump {
                counter: Counter::Direct(first),
                rel: second,
            },
        ),
        0xE => (2, Instr::Load(Memory::Direct(first))),
        _ => (2, Instr::Store(Memory::Direct(first))),
    }
}

fn row_of_line_d(working: Working, first: u8) -> (u8, Instr)
    ensures { result ≡ line_D working first }
{
    match working {
        Working::Indirect(pointer) => (1, Instr::ExchangeDigit(pointer)),
        Working::Register(register) => (
            2,
            Instr::DecrementJump {
                counter: Counter::Register(register),
                rel: first,
            },
        ),
    }
}

#[tactic(auto, unfolding(crate::specs::Table::working_columns))]
fn row_of_working(line: u8, working: Working, first: u8, second: u8) -> (u8, Instr)
    requires { line < 16 }
    ensures { result ≡ working_columns line working first second }
{
    match line {
        0x0 => (1, Instr::Increment(Place::Memory(Memory::Working(working)))),
        0x1 => (1, Instr::Decrement(Place::Memory(Memory::Working(working)))),
        0x2 => (
            1,
            Instr::Accumulate {
                operation: Operation::Add,
                source: Source::Memory(Memory::Working(working)),
            },
        ),
        0x3 => (
            1,
            Instr::Accumulate {
                operation: Operation::Addc,
                source: Source::Memory(Memory::Working(working)),
            },
        ),
        0x4 => (
            1,
            Instr::Accumulate {
                operation: Operation::Orl,
                source: Source::Memory(Memory::Working(working)),
            },
        ),
        0x5 => (
            1,
            Instr::Accumulate {
                operation: Operation::Anl,
                source: Source::Memory(Memory::Working(working)),
            },
        ),
        0x6 => (
            1,
            Instr::Accumulate {
                operation: Operation::Xrl,
                source: Source::Memory(Memory::Working(working)),
            },
        ),
        0x7 => (
            2,
            Instr::MoveImmediate {
                to: Place::Memory(Memory::Working(working)),
                value: first,
            },
        ),
        0x8 => (
            2,
            Instr::MoveToDirect {
                to: first,
                from: Memory::Working(working),
            },
        ),
        0x9 => (
            1,
            Instr::Accumulate {
                operation: Operation::Subb,
                source: Source::Memory(Memory::Working(working)),
            },
        ),
        0xA => (
            2,
            Instr::MoveFromDirect {
                to: working,
                from: first,
            },
        ),
        0xB => (
            3,
            Instr::CompareJump {
                comparison: Comparison::WorkingImmediate {
                    operand: working,
                    value: first,
                },
                rel: second,
            },
        ),
        0xC => (1, Instr::Exchange(Memory::Working(working))),
        0xD => row_of_line_d(working, first),
        0xE => (1, Instr::Load(Memory::Working(working))),
        _ => (1, Instr::Store(Memory::Working(working))),
    }
}

/// The operand of a column from 6 to Fh.
fn working_of(column: u8) -> Working
    ensures { result ≡ working_at column }
{
    match column {
        0x6 => Working::Indirect(Pointer::R0),
        0x7 => Working::Indirect(Pointer::R1),
        0x8 => Working::Register(Register::R0),
        0x9 => Working::Register(Register::R1),
        0xA => Working::Register(Register::R2),
        0xB => Working::Register(Register::R3),
        0xC => Working::Register(Register::R4),
        0xD => Working::Register(Register::R5),
        0xE => Working::Register(Register::R6),
        _ => Working::Register(Register::R7),
    }
}

/// The number of bytes and the instruction of an opcode other than A5h, with the two bytes behind it, as far as it takes
/// them.
#[tactic(auto, unfolding(crate::specs::Table::row_in))]
pub fn row_of(opcode: u8, first: u8, second: u8) -> (u8, Instr)
    requires { is_excluded opcode ≡ false }
    ensures { result ≡ row_at opcode first second }
{
    let line = opcode / 16;
    let column = opcode % 16;
    match column {
        0x0 => row_of_column_0(line, first, second),
        0x1 => row_of_column_1(line, first),
        0x2 => row_of_column_2(line, first, second),
        0x3 => row_of_column_3(line, first, second),
        0x4 => row_of_column_4(line, first, second),
        0x5 => row_of_column_5(line, first, second),
        _ => row_of_working(line, working_of(column), first, second),
    }
}
