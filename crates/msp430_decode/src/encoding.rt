//! The bytes of instructions.

ghost use Rattle.std.specs.Prelude.{◌≡◌, ◌≤◌, ◌<◌, ◌+◌, ◌*◌, ◌++◌, length, ℕ, List};
ghost use Rattle.std.specs.List.{flat_map};
ghost use Rattle.std.specs.Option.{option_to_list};
ghost use Rattle.arrayvec.specs.ArrayVec.{array_vec_len};
ghost use Rattle.msp430_decode.specs.Table.{IsInstr, Row, first_word, extension_words, word_bytes, bytes_of, length_of, target_of, jump_target};

use crate::codes::{code_of_condition, code_of_operation, code_of_single, code_of_width};
use crate::instr::Instr;
use crate::operands::{
    length_of_destination, mode_of_destination, mode_of_source, register_of_destination,
    register_of_source, word_of_destination, word_of_source,
};
use arrayvec::ArrayVec;

/// The first word of an instruction.
fn word_of(instr: Instr) -> u16
    requires { IsInstr instr }
    ensures { result ≡ first_word instr }
{
    match instr {
        Instr::Double {
            operation,
            width,
            source,
            destination,
        } => {
            code_of_operation(operation) * 4096
                + register_of_source(source).number() as u16 * 256
                + mode_of_destination(destination) * 128
                + code_of_width(width) * 64
                + mode_of_source(source) * 16
                + register_of_destination(destination).number() as u16
        }
        Instr::Single {
            operation,
            width,
            operand,
        } => {
            4096 + code_of_single(operation) * 128
                + code_of_width(width) * 64
                + mode_of_source(operand) * 16
                + register_of_source(operand).number() as u16
        }
        Instr::Jump { condition, offset } => 8192 + code_of_condition(condition) * 1024 + offset,
        Instr::ReturnFromInterrupt => 0x1300,
    }
}

/// Adds a word, its low byte first.
fn push_word(bytes: &mut ArrayVec<u8, 6>, word: u16)
    requires { array_vec_len bytes.old + 2 ≤ 6 }
    ensures items { bytes.new.items ≡ bytes.old.items ++ word_bytes word }
    ensures len { array_vec_len bytes.new ≡ array_vec_len bytes.old + 2 }
{
    bytes.push((word % 256) as u8);
    bytes.push((word / 256) as u8);
}

/// Adds an extension word, where there is one.
fn push_extension(bytes: &mut ArrayVec<u8, 6>, extension: Option<u16>)
    requires { array_vec_len bytes.old + 2 ≤ 6 }
    ensures items { bytes.new.items ≡ bytes.old.items ++ flat_map word_bytes (option_to_list extension) }
    ensures len { array_vec_len bytes.new ≤ array_vec_len bytes.old + 2 }
{
    if let Some(word) = extension {
        push_word(bytes, word);
    }
}

/// The bytes of an instruction: two, four or six.
pub fn encode(instr: &Instr) -> ArrayVec<u8, 6>
    requires { IsInstr instr.now }
    ensures items { result.items ≡ bytes_of instr.now }
    ensures row { (bytes : List ℕ) → Row bytes instr.now → result.items ≡ bytes }
{
    let mut bytes = ArrayVec::new();
    push_word(&mut bytes, word_of(*instr));
    match *instr {
        Instr::Double {
            source,
            destination,
            ..
        } => {
            push_extension(&mut bytes, word_of_source(source));
            push_extension(&mut bytes, word_of_destination(destination));
        }
        Instr::Single { operand, .. } => push_extension(&mut bytes, word_of_source(operand)),
        Instr::Jump { .. } | Instr::ReturnFromInterrupt => {}
    }
    bytes
}

/// Where a jump by an offset goes: the offset is signed, of ten bits, and in words from the following address.
pub fn offset_target(pc: u16, offset: u16) -> u16
    requires { offset < 1024 }
    ensures { result ≡ target_of pc offset }
{
    let forward = pc as u32 + 2 + 2 * offset as u32;
    if offset < 512 {
        (forward % 65536) as u16
    } else {
        ((forward + 65536 - 2048) % 65536) as u16
    }
}

impl Instr {
    /// The number of an instruction's bytes: 2, 4 or 6.
    pub fn length(&self) -> u8
        ensures { result ≡ length_of self.now }
    {
        match *self {
            Instr::Double {
                source,
                destination,
                ..
            } => 2 + source.extension_length() + length_of_destination(destination),
            Instr::Single { operand, .. } => 2 + operand.extension_length(),
            Instr::Jump { .. } | Instr::ReturnFromInterrupt => 2,
        }
    }

    /// Where an instruction at an address jumps, if it is a jump.
    pub fn jump_target(&self, pc: u16) -> Option<u16>
        requires { IsInstr self.now }
        ensures { result ≡ jump_target pc self.now }
    {
        match *self {
            Instr::Jump { offset, .. } => Some(offset_target(pc, offset)),
            _ => None,
        }
    }
}
