//! Whole instructions.

ghost use Rattle.std.specs.Prelude.{◌≡◌};
ghost use Rattle.mcs51_text.specs.Text.{text_of};

use crate::names::{
    accumulator_name, base_name, bit_name, bit_suffix, carry_bit_name, carry_name, condition_name,
    logic_name, operation_name, pointer_name, test_name,
};
use crate::parts::{
    push_comparison, push_counter, push_external, push_immediate, push_mask, push_memory,
    push_place, push_source, push_target, push_working,
};
use arrayvec::ArrayString;
use hex_digits::{push_byte, push_word};
use mcs51_decode::Instr;

/// The text of an instruction at an address, as an assembly programmer writes it.
///
/// A mnemonic, a space, and the operands with commas between them, the destination first: `MOV 31h,30h`. Numbers and the
/// addresses of bytes and bits have two digits, words have four. Jumps and calls show the address that they reach.
pub fn text(instr: &Instr, pc: u16) -> ArrayString<40>
    ensures { result.bytes ≡ text_of pc instr.now }
{
    let mut text = ArrayString::new();
    match *instr {
        Instr::Nop => text.push_str("NOP"),
        Instr::AbsoluteJump(_) => {
            text.push_str("AJMP ");
            push_target(&mut text, pc, *instr);
        }
        Instr::AbsoluteCall(_) => {
            text.push_str("ACALL ");
            push_target(&mut text, pc, *instr);
        }
        Instr::LongJump(_) => {
            text.push_str("LJMP ");
            push_target(&mut text, pc, *instr);
        }
        Instr::LongCall(_) => {
            text.push_str("LCALL ");
            push_target(&mut text, pc, *instr);
        }
        Instr::Return => text.push_str("RET"),
        Instr::ReturnFromInterrupt => text.push_str("RETI"),
        Instr::JumpIndirect => text.push_str("JMP @A+DPTR"),
        Instr::JumpOn { condition, .. } => {
            text.push_str(condition_name(condition));
            push_target(&mut text, pc, *instr);
        }
        Instr::JumpOnBit { test, bit, .. } => {
            text.push_str(test_name(test));
            push_byte(&mut text, bit);
            text.push_str(",");
            push_target(&mut text, pc, *instr);
        }
        Instr::CompareJump { comparison, .. } => {
            text.push_str("CJNE ");
            push_comparison(&mut text, comparison);
            text.push_str(",");
            push_target(&mut text, pc, *instr);
        }
        Instr::DecrementJump { counter, .. } => {
            text.push_str("DJNZ ");
            push_counter(&mut text, counter);
            text.push_str(",");
            push_target(&mut text, pc, *instr);
        }
        Instr::ChangeAccumulator(operation) => text.push_str(accumulator_name(operation)),
        Instr::Increment(place) => {
            text.push_str("INC ");
            push_place(&mut text, place);
        }
        Instr::Decrement(place) => {
            text.push_str("DEC ");
            push_place(&mut text, place);
        }
        Instr::IncrementDataPointer => text.push_str("INC DPTR"),
        Instr::Accumulate { operation, source } => {
            text.push_str(operation_name(operation));
            push_source(&mut text, source);
        }
        Instr::DirectLogic {
            operation,
            direct,
            mask,
        } => {
            text.push_str(logic_name(operation));
            push_byte(&mut text, direct);
            text.push_str(",");
            push_mask(&mut text, mask);
        }
        Instr::Multiply => text.push_str("MUL AB"),
        Instr::Divide => text.push_str("DIV AB"),
        Instr::ChangeCarry(operation) => text.push_str(carry_name(operation)),
        Instr::CarryBit { operation, bit } => {
            text.push_str(carry_bit_name(operation));
            push_byte(&mut text, bit);
        }
        Instr::ChangeBit { operation, bit } => {
            text.push_str(bit_name(operation));
            push_byte(&mut text, bit);
            text.push_str(bit_suffix(operation));
        }
        Instr::MoveImmediate { to, value } => {
            text.push_str("MOV ");
            push_place(&mut text, to);
            text.push_str(",");
            push_immediate(&mut text, value);
        }
        Instr::MoveToDirect { to, from } => {
            text.push_str("MOV ");
            push_byte(&mut text, to);
            text.push_str(",");
            push_memory(&mut text, from);
        }
        Instr::MoveFromDirect { to, from } => {
            text.push_str("MOV ");
            push_working(&mut text, to);
            text.push_str(",");
            push_byte(&mut text, from);
        }
        Instr::LoadDataPointer(value) => {
            text.push_str("MOV DPTR,#");
            push_word(&mut text, value);
        }
        Instr::Load(memory) => {
            text.push_str("MOV A,");
            push_memory(&mut text, memory);
        }
        Instr::Store(memory) => {
            text.push_str("MOV ");
            push_memory(&mut text, memory);
            text.push_str(",A");
        }
        Instr::MoveCode(base) => text.push_str(base_name(base)),
        Instr::ReadExternal(external) => {
            text.push_str("MOVX A,");
            push_external(&mut text, external);
        }
        Instr::WriteExternal(external) => {
            text.push_str("MOVX ");
            push_external(&mut text, external);
            text.push_str(",A");
        }
        Instr::Push(direct) => {
            text.push_str("PUSH ");
            push_byte(&mut text, direct);
        }
        Instr::Pop(direct) => {
            text.push_str("POP ");
            push_byte(&mut text, direct);
        }
        Instr::Exchange(memory) => {
            text.push_str("XCH A,");
            push_memory(&mut text, memory);
        }
        Instr::ExchangeDigit(pointer) => {
            text.push_str("XCHD A,");
            text.push_str(pointer_name(pointer));
        }
    }
    text
}
