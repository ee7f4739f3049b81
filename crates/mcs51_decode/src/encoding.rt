//! The bytes of instructions.

ghost use Rattle.std.specs.Prelude.{◌≡◌, ◌≤◌, ◌<◌, ◌+◌, ◌*◌, ◌/◌, ◌%◌, ◌++◌, ◌∷◌, [], length, ℕ, List, Some};
ghost use Rattle.arrayvec.specs.ArrayVec.{array_vec_len};
ghost use Rattle.mcs51_decode.specs.Table.{Row};
ghost use Rattle.mcs51_decode.specs.Encoding.{register_number, pointer_number, working_column, memory_column, memory_operands, source_column, source_operands, place_column, place_operands, operation_line, logic_line, accumulator_code, carry_code, carry_bit_code, bit_code, condition_code, test_code, base_code, mask_column, mask_operands, comparison_column, comparison_operand, counter_column, counter_operands, external_column, opcode_of, operand_bytes, word_bytes, bytes_of, length_of};

use crate::instr::{
    AccumulatorOperation, BitOperation, BitTest, CarryByBit, CarryOperation, CodeBase, Comparison,
    Condition, Counter, External, Instr, Logic, Mask, Memory, Operation, Place, Pointer, Register,
    Source, Working,
};
use arrayvec::ArrayVec;

/// The number of a working register.
pub fn number_of_register(register: Register) -> u8
    ensures value { result ≡ register_number register }
    ensures below { result < 8 }
{
    match register {
        Register::R0 => 0,
        Register::R1 => 1,
        Register::R2 => 2,
        Register::R3 => 3,
        Register::R4 => 4,
        Register::R5 => 5,
        Register::R6 => 6,
        Register::R7 => 7,
    }
}

/// The same of one that holds an address.
pub fn number_of_pointer(pointer: Pointer) -> u8
    ensures value { result ≡ pointer_number pointer }
    ensures below { result < 2 }
{
    match pointer {
        Pointer::R0 => 0,
        Pointer::R1 => 1,
    }
}

fn column_of_working(working: Working) -> u8
    ensures value { result ≡ working_column working }
    ensures below { result < 16 }
{
    match working {
        Working::Indirect(pointer) => 0x6 + number_of_pointer(pointer),
        Working::Register(register) => 0x8 + number_of_register(register),
    }
}

fn column_of_memory(memory: Memory) -> u8
    ensures value { result ≡ memory_column memory }
    ensures below { result < 16 }
{
    match memory {
        Memory::Direct(_) => 0x5,
        Memory::Working(working) => column_of_working(working),
    }
}

fn column_of_source(source: Source) -> u8
    ensures value { result ≡ source_column source }
    ensures below { result < 16 }
{
    match source {
        Source::Immediate(_) => 0x4,
        Source::Memory(memory) => column_of_memory(memory),
    }
}

fn column_of_place(place: Place) -> u8
    ensures value { result ≡ place_column place }
    ensures below { result < 16 }
{
    match place {
        Place::Accumulator => 0x4,
        Place::Memory(memory) => column_of_memory(memory),
    }
}

fn column_of_mask(mask: Mask) -> u8
    ensures value { result ≡ mask_column mask }
    ensures below { result < 4 }
{
    match mask {
        Mask::Accumulator => 0x2,
        Mask::Immediate(_) => 0x3,
    }
}

fn column_of_comparison(comparison: Comparison) -> u8
    ensures value { result ≡ comparison_column comparison }
    ensures below { result < 16 }
{
    match comparison {
        Comparison::AccumulatorImmediate(_) => 0x4,
        Comparison::AccumulatorDirect(_) => 0x5,
        Comparison::WorkingImmediate { operand, .. } => column_of_working(operand),
    }
}

fn column_of_counter(counter: Counter) -> u8
    ensures value { result ≡ counter_column counter }
    ensures below { result < 16 }
{
    match counter {
        Counter::Direct(_) => 0x5,
        Counter::Register(register) => 0x8 + number_of_register(register),
    }
}

fn column_of_external(external: External) -> u8
    ensures value { result ≡ external_column external }
    ensures below { result < 4 }
{
    match external {
        External::DataPointer => 0x0,
        External::Indirect(pointer) => 0x2 + number_of_pointer(pointer),
    }
}

fn line_of_operation(operation: Operation) -> u8
    ensures value { result ≡ operation_line operation }
    ensures below { result < 145 }
{
    match operation {
        Operation::Add => 0x20,
        Operation::Addc => 0x30,
        Operation::Orl => 0x40,
        Operation::Anl => 0x50,
        Operation::Xrl => 0x60,
        Operation::Subb => 0x90,
    }
}

fn line_of_logic(logic: Logic) -> u8
    ensures value { result ≡ logic_line logic }
    ensures below { result < 97 }
{
    match logic {
        Logic::Orl => 0x40,
        Logic::Anl => 0x50,
        Logic::Xrl => 0x60,
    }
}

fn code_of_accumulator(operation: AccumulatorOperation) -> u8
    ensures value { result ≡ accumulator_code operation }
    ensures below { result < 245 }
{
    match operation {
        AccumulatorOperation::Rr => 0x03,
        AccumulatorOperation::Rrc => 0x13,
        AccumulatorOperation::Rl => 0x23,
        AccumulatorOperation::Rlc => 0x33,
        AccumulatorOperation::Swap => 0xC4,
        AccumulatorOperation::Da => 0xD4,
        AccumulatorOperation::Clr => 0xE4,
        AccumulatorOperation::Cpl => 0xF4,
    }
}

fn code_of_carry(operation: CarryOperation) -> u8
    ensures value { result ≡ carry_code operation }
    ensures below { result < 212 }
{
    match operation {
        CarryOperation::Cpl => 0xB3,
        CarryOperation::Clr => 0xC3,
        CarryOperation::Setb => 0xD3,
    }
}

fn code_of_carry_bit(operation: CarryByBit) -> u8
    ensures value { result ≡ carry_bit_code operation }
    ensures below { result < 177 }
{
    match operation {
        CarryByBit::Orl => 0x72,
        CarryByBit::Anl => 0x82,
        CarryByBit::OrlComplement => 0xA0,
        CarryByBit::AnlComplement => 0xB0,
        CarryByBit::Mov => 0xA2,
    }
}

fn code_of_bit(operation: BitOperation) -> u8
    ensures value { result ≡ bit_code operation }
    ensures below { result < 211 }
{
    match operation {
        BitOperation::MovCarry => 0x92,
        BitOperation::Cpl => 0xB2,
        BitOperation::Clr => 0xC2,
        BitOperation::Setb => 0xD2,
    }
}

fn code_of_condition(condition: Condition) -> u8
    ensures value { result ≡ condition_code condition }
    ensures below { result < 129 }
{
    match condition {
        Condition::Carry => 0x40,
        Condition::NoCarry => 0x50,
        Condition::Zero => 0x60,
        Condition::NotZero => 0x70,
        Condition::Always => 0x80,
    }
}

fn code_of_test(test: BitTest) -> u8
    ensures value { result ≡ test_code test }
    ensures below { result < 49 }
{
    match test {
        BitTest::SetAndClear => 0x10,
        BitTest::Set => 0x20,
        BitTest::Clear => 0x30,
    }
}

fn code_of_base(base: CodeBase) -> u8
    ensures value { result ≡ base_code base }
    ensures below { result < 148 }
{
    match base {
        CodeBase::ProgramCounter => 0x83,
        CodeBase::DataPointer => 0x93,
    }
}

/// The opcode of an instruction.
fn code_of(instr: Instr) -> u8
    ensures { result ≡ opcode_of instr }
{
    match instr {
        Instr::Nop => 0x00,
        Instr::AbsoluteJump(target) => 0x01 + 32 * (target / 256 % 8) as u8,
        Instr::AbsoluteCall(target) => 0x11 + 32 * (target / 256 % 8) as u8,
        Instr::LongJump(_) => 0x02,
        Instr::LongCall(_) => 0x12,
        Instr::Return => 0x22,
        Instr::ReturnFromInterrupt => 0x32,
        Instr::JumpIndirect => 0x73,
        Instr::JumpOn { condition, .. } => code_of_condition(condition),
        Instr::JumpOnBit { test, .. } => code_of_test(test),
        Instr::CompareJump { comparison, .. } => 0xB0 + column_of_comparison(comparison),
        Instr::DecrementJump { counter, .. } => 0xD0 + column_of_counter(counter),
        Instr::ChangeAccumulator(operation) => code_of_accumulator(operation),
        Instr::Increment(place) => column_of_place(place),
        Instr::Decrement(place) => 0x10 + column_of_place(place),
        Instr::IncrementDataPointer => 0xA3,
        Instr::Accumulate { operation, source } => line_of_operation(operation)
            + column_of_source(source),
        Instr::DirectLogic {
            operation,
            mask,
            ..
        } => line_of_logic(operation) + column_of_mask(mask),
        Instr::Multiply => 0xA4,
        Instr::Divide => 0x84,
        Instr::ChangeCarry(operation) => code_of_carry(operation),
        Instr::CarryBit { operation, .. } => code_of_carry_bit(operation),
        Instr::ChangeBit { operation, .. } => code_of_bit(operation),
        Instr::MoveImmediate { to, .. } => 0x70 + column_of_place(to),
        Instr::MoveToDirect { from, .. } => 0x80 + column_of_memory(from),
        Instr::MoveFromDirect { to, .. } => 0xA0 + column_of_working(to),
        Instr::LoadDataPointer(_) => 0x90,
        Instr::Load(memory) => 0xE0 + column_of_memory(memory),
        Instr::Store(memory) => 0xF0 + column_of_memory(memory),
        Instr::MoveCode(base) => code_of_base(base),
        Instr::ReadExternal(external) => 0xE0 + column_of_external(external),
        Instr::WriteExternal(external) => 0xF0 + column_of_external(external),
        Instr::Push(_) => 0xC0,
        Instr::Pop(_) => 0xD0,
        Instr::Exchange(memory) => 0xC0 + column_of_memory(memory),
        Instr::ExchangeDigit(pointer) => 0xD6 + number_of_pointer(pointer),
    }
}

/// Adds the operand of a byte of memory, where it has one.
fn push_memory(bytes: &mut ArrayVec<u8, 6>, memory: Memory)
    requires { array_vec_len bytes.old + 1 ≤ 6 }
    ensures items { bytes.new.items ≡ bytes.old.items ++ memory_operands memory }
    ensures len { array_vec_len bytes.new ≤ array_vec_len bytes.old + 1 }
{
    match memory {
        Memory::Direct(direct) => bytes.push(direct),
        Memory::Working(_) => {},
    }
}

fn push_source(bytes: &mut ArrayVec<u8, 6>, source: Source)
    requires { array_vec_len bytes.old + 1 ≤ 6 }
    ensures items { bytes.new.items ≡ bytes.old.items ++ source_operands source }
    ensures len { array_vec_len bytes.new ≤ array_vec_len bytes.old + 1 }
{
    match source {
        Source::Immediate(value) => bytes.push(value),
        Source::Memory(memory) => push_memory(bytes, memory),
    }
}

fn push_place(bytes: &mut ArrayVec<u8, 6>, place: Place)
    requires { array_vec_len bytes.old + 1 ≤ 6 }
    ensures items { bytes.new.items ≡ bytes.old.items ++ place_operands place }
    ensures len { array_vec_len bytes.new ≤ array_vec_len bytes.old + 1 }
{
    match place {
        Place::Accumulator => {},
        Place::Memory(memory) => push_memory(bytes, memory),
    }
}

fn push_mask(bytes: &mut ArrayVec<u8, 6>, mask: Mask)
    requires { array_vec_len bytes.old + 1 ≤ 6 }
    ensures items { bytes.new.items ≡ bytes.old.items ++ mask_operands mask }
    ensures len { array_vec_len bytes.new ≤ array_vec_len bytes.old + 1 }
{
    match mask {
        Mask::Accumulator => {},
        Mask::Immediate(value) => bytes.push(value),
    }
}

fn push_counter(bytes: &mut ArrayVec<u8, 6>, counter: Counter)
    requires { array_vec_len bytes.old + 1 ≤ 6 }
    ensures items { bytes.new.items ≡ bytes.old.items ++ counter_operands counter }
    ensures len { array_vec_len bytes.new ≤ array_vec_len bytes.old + 1 }
{
    match counter {
        Counter::Direct(direct) => bytes.push(direct),
        Counter::Register(_) => {},
    }
}

fn operand_of_comparison(comparison: Comparison) -> u8
    ensures { result ≡ comparison_operand comparison }
{
    match comparison {
        Comparison::AccumulatorImmediate(value) | Comparison::WorkingImmediate { value, .. } =>
            value,
        Comparison::AccumulatorDirect(direct) => direct,
    }
}

/// Adds a word, its high byte first.
fn push_word(bytes: &mut ArrayVec<u8, 6>, word: u16)
    requires { array_vec_len bytes.old + 2 ≤ 6 }
    ensures items { bytes.new.items ≡ bytes.old.items ++ word_bytes word }
    ensures len { array_vec_len bytes.new ≡ array_vec_len bytes.old + 2 }
{
    bytes.push((word / 256) as u8);
    bytes.push((word % 256) as u8);
}

/// Adds the bytes behind an instruction's opcode.
fn push_operands(bytes: &mut ArrayVec<u8, 6>, instr: Instr)
    requires { array_vec_len bytes.old + 2 ≤ 6 }
    ensures { bytes.new.items ≡ bytes.old.items ++ operand_bytes instr }
{
    match instr {
        Instr::Nop
        | Instr::Return
        | Instr::ReturnFromInterrupt
        | Instr::JumpIndirect
        | Instr::ChangeAccumulator(_)
        | Instr::IncrementDataPointer
        | Instr::Multiply
        | Instr::Divide
        | Instr::ChangeCarry(_)
        | Instr::MoveCode(_)
        | Instr::ReadExternal(_)
        | Instr::WriteExternal(_)
        | Instr::ExchangeDigit(_) => {}
        Instr::AbsoluteJump(target) | Instr::AbsoluteCall(target) => bytes.push(
            (target % 256) as u8,
        ),
        Instr::LongJump(word) | Instr::LongCall(word) | Instr::LoadDataPointer(word) => push_word(
            bytes, word,
        ),
        Instr::JumpOn { rel, .. } => bytes.push(rel),
        Instr::JumpOnBit { bit, rel, .. } => {
            bytes.push(bit);
            bytes.push(rel);
        }
        Instr::CompareJump { comparison, rel } => {
            bytes.push(operand_of_comparison(comparison));
            bytes.push(rel);
        }
        Instr::DecrementJump { counter, rel } => {
            push_counter(bytes, counter);
            bytes.push(rel);
        }
        Instr::Increment(place) | Instr::Decrement(place) => push_place(bytes, place),
        Instr::Accumulate { source, .. } => push_source(bytes, source),
        Instr::DirectLogic { direct, mask, .. } => {
            bytes.push(direct);
            push_mask(bytes, mask);
        }
        Instr::CarryBit { bit, .. } | Instr::ChangeBit { bit, .. } => bytes.push(bit),
        Instr::MoveImmediate { to, value } => {
            push_place(bytes, to);
            bytes.push(value);
        }
        // the source's byte stands in front
        Instr::MoveToDirect { to, from } => {
            push_memory(bytes, from);
            bytes.push(to);
        }
        Instr::MoveFromDirect { from, .. } => bytes.push(from),
        Instr::Load(memory) | Instr::Store(memory) | Instr::Exchange(memory) => push_memory(
            bytes, memory,
        ),
        Instr::Push(direct) | Instr::Pop(direct) => bytes.push(direct),
    }
}

/// The opcode and the bytes behind it.
fn code_and_operands(instr: Instr) -> ArrayVec<u8, 6>
    ensures { result.items ≡ bytes_of instr }
{
    let mut bytes = ArrayVec::new();
    bytes.push(code_of(instr));
    push_operands(&mut bytes, instr);
    bytes
}

/// The bytes of an instruction: one, two or three.
pub fn encode(instr: &Instr) -> ArrayVec<u8, 6>
    ensures items { result.items ≡ bytes_of instr.now }
    ensures row { (bytes : List ℕ) → Row bytes instr.now → result.items ≡ bytes }
{
    code_and_operands(*instr)
}

fn length_of_memory(memory: Memory) -> u8
    ensures value { result ≡ length (memory_operands memory) }
    ensures below { result < 2 }
{
    match memory {
        Memory::Direct(_) => 1,
        Memory::Working(_) => 0,
    }
}

fn length_of_place(place: Place) -> u8
    ensures value { result ≡ length (place_operands place) }
    ensures below { result < 2 }
{
    match place {
        Place::Accumulator => 0,
        Place::Memory(memory) => length_of_memory(memory),
    }
}

fn length_of_source(source: Source) -> u8
    ensures value { result ≡ length (source_operands source) }
    ensures below { result < 2 }
{
    match source {
        Source::Immediate(_) => 1,
        Source::Memory(memory) => length_of_memory(memory),
    }
}

impl Instr {
    /// The number of an instruction's bytes: 1, 2 or 3.
    pub fn length(&self) -> u8
        ensures value { result ≡ length_of self.now }
        ensures below { result < 4 }
    {
        match *self {
            Instr::Nop
            | Instr::Return
            | Instr::ReturnFromInterrupt
            | Instr::JumpIndirect
            | Instr::ChangeAccumulator(_)
            | Instr::IncrementDataPointer
            | Instr::Multiply
            | Instr::Divide
            | Instr::ChangeCarry(_)
            | Instr::MoveCode(_)
            | Instr::ReadExternal(_)
            | Instr::WriteExternal(_)
            | Instr::ExchangeDigit(_) => 1,
            Instr::AbsoluteJump(_)
            | Instr::AbsoluteCall(_)
            | Instr::JumpOn { .. }
            | Instr::DecrementJump {
                counter: Counter::Register(_),
                ..
            }
            | Instr::DirectLogic {
                mask: Mask::Accumulator,
                ..
            }
            | Instr::CarryBit { .. }
            | Instr::ChangeBit { .. }
            | Instr::MoveFromDirect { .. }
            | Instr::Push(_)
            | Instr::Pop(_) => 2,
            Instr::LongJump(_)
            | Instr::LongCall(_)
            | Instr::LoadDataPointer(_)
            | Instr::JumpOnBit { .. }
            | Instr::CompareJump { .. }
            | Instr::DecrementJump {
                counter: Counter::Direct(_),
                ..
            }
            | Instr::DirectLogic {
                mask: Mask::Immediate(_),
                ..
            } => 3,
            Instr::Increment(place) | Instr::Decrement(place) => 1 + length_of_place(place),
            Instr::Accumulate { source, .. } => 1 + length_of_source(source),
            Instr::MoveImmediate { to, .. } => 2 + length_of_place(to),
            Instr::MoveToDirect { from, .. } => 2 + length_of_memory(from),
            Instr::Load(memory) | Instr::Store(memory) | Instr::Exchange(memory) => 1
                + length_of_memory(memory),
        }
    }
}
