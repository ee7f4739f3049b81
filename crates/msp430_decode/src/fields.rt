//! The instruction of a first word and its extension words, field by field.

ghost use Rattle.std.specs.Prelude.{◌≡◌, ◌<◌};
ghost use Rattle.msp430_decode.specs.Excluded.{is_constant_operand, is_excluded, is_excluded_single, is_excluded_double};
ghost use Rattle.msp430_decode.specs.Fields.{plain_source, indexed_source, indirect_source, increment_source, source_of, takes_word, indexed_destination, destination_of, double_of, single_of, jump_of, instr_of};

use crate::codes::{condition_from, operation_from, register_from, single_from, width_from};
use crate::instr::{Constant, Destination, Instr, Register, Source};

/// RETI's word.
const RETURN_FROM_INTERRUPT: u16 = 0x1300;

/// Whether a source of this mode and register is an immediate, a constant of SR, or R3.
fn is_constant(mode: u16, register: u16) -> bool
    ensures { result ≡ is_constant_operand mode register }
{
    (register == 0 && mode == 3) || (register == 2 && mode >= 2) || register == 3
}

/// Whether a word from 1000h to 13FFh begins no instruction.
fn is_no_single(word: u16) -> bool
    ensures { result ≡ is_excluded_single word }
{
    let code = word / 128 % 8;
    let is_byte = word / 64 % 2 == 1;
    let mode = word / 16 % 4;
    let register = word % 16;
    if code == 7 {
        true
    } else if code == 6 {
        word != RETURN_FROM_INTERRUPT
    } else if is_byte && (code == 1 || code == 3 || code == 5) {
        true
    } else if mode == 2 && register == 0 {
        true
    } else {
        code < 4 && is_constant(mode, register)
    }
}

/// Whether a word from 4000h on begins no instruction.
fn is_no_double(word: u16) -> bool
    ensures { result ≡ is_excluded_double word }
{
    (word / 16 % 4 == 2 && word / 256 % 16 == 0) || (word / 128 % 2 == 1 && word % 16 == 3)
}

/// Whether no instruction begins with this word.
pub fn is_no_instruction(word: u16) -> bool
    ensures { result ≡ is_excluded word }
{
    if word < 0x1000 {
        true
    } else if word < 0x1400 {
        is_no_single(word)
    } else if word < 0x2000 {
        true
    } else if word < 0x4000 {
        false
    } else {
        is_no_double(word)
    }
}

fn plain(register: Register) -> Source
    ensures { result ≡ plain_source register }
{
    match register {
        Register::R3 => Source::Constant(Constant::Zero),
        _ => Source::Register(register),
    }
}

fn indexed(register: Register, word: u16) -> Source
    ensures { result ≡ indexed_source register word }
{
    match register {
        Register::Pc => Source::Symbolic(word),
        Register::Sr => Source::Absolute(word),
        Register::R3 => Source::Constant(Constant::One),
        _ => Source::Indexed {
            register,
            offset: word,
        },
    }
}

fn indirect(register: Register) -> Source
    ensures { result ≡ indirect_source register }
{
    match register {
        Register::Sr => Source::Constant(Constant::Four),
        Register::R3 => Source::Constant(Constant::Two),
        _ => Source::Indirect(register),
    }
}

fn increment(register: Register, word: u16) -> Source
    ensures { result ≡ increment_source register word }
{
    match register {
        Register::Pc => Source::Immediate(word),
        Register::Sr => Source::Constant(Constant::Eight),
        Register::R3 => Source::Constant(Constant::MinusOne),
        _ => Source::IndirectIncrement(register),
    }
}

/// The source with this mode (As) and register, and the next extension word, which it takes or not.
fn source_from(mode: u16, register: Register, word: u16) -> Source
    ensures { result ≡ source_of mode register word }
{
    match mode {
        0 => plain(register),
        1 => indexed(register, word),
        2 => indirect(register),
        _ => increment(register, word),
    }
}

/// Whether a source has an extension word.
fn has_word(source: Source) -> bool
    ensures { result ≡ takes_word source }
{
    match source {
        Source::Indexed { .. } | Source::Immediate(_) | Source::Symbolic(_) | Source::Absolute(_) =>
            true,
        Source::Register(_)
        | Source::Indirect(_)
        | Source::IndirectIncrement(_)
        | Source::Constant(_) => false,
    }
}

fn indexed_to(register: Register, word: u16) -> Destination
    ensures { result ≡ indexed_destination register word }
{
    match register {
        Register::Pc => Destination::Symbolic(word),
        Register::Sr => Destination::Absolute(word),
        _ => Destination::Indexed {
            register,
            offset: word,
        },
    }
}

/// The destination with this mode (Ad) and register, and the next extension word.
fn destination_from(mode: u16, register: Register, word: u16) -> Destination
    ensures { result ≡ destination_of mode register word }
{
    match mode {
        0 => Destination::Register(register),
        _ => indexed_to(register, word),
    }
}

#[tactic(auto, unfolding(crate::specs::Fields::double_of))]
fn double_from(word: u16, first: u16, second: u16) -> Instr
    ensures { result ≡ double_of word first second }
{
    let source = source_from(word / 16 % 4, register_from(word / 256 % 16), first);
    let rest = if has_word(source) { second } else { first };
    Instr::Double {
        operation: operation_from(word / 4096),
        width: width_from(word / 64 % 2),
        source,
        destination: destination_from(word / 128 % 2, register_from(word % 16), rest),
    }
}

#[tactic(auto, unfolding(crate::specs::Fields::single_of))]
fn single_or_return_from(word: u16, first: u16) -> Instr
    ensures { result ≡ single_of word first }
{
    if word == RETURN_FROM_INTERRUPT {
        return Instr::ReturnFromInterrupt;
    }
    Instr::Single {
        operation: single_from(word / 128 % 8),
        width: width_from(word / 64 % 2),
        operand: source_from(word / 16 % 4, register_from(word % 16), first),
    }
}

#[tactic(auto, unfolding(crate::specs::Fields::jump_of))]
fn jump_from(word: u16) -> Instr
    ensures { result ≡ jump_of word }
{
    Instr::Jump {
        condition: condition_from(word / 1024 % 8),
        offset: word % 1024,
    }
}

/// The instruction of a first word that begins one, and the two words behind it, as far as it takes them.
#[tactic(auto, unfolding(crate::specs::Fields::instr_of))]
pub fn instr_from(word: u16, first: u16, second: u16) -> Instr
    ensures { result ≡ instr_of word first second }
{
    if word < 0x2000 {
        single_or_return_from(word, first)
    } else if word < 0x4000 {
        jump_from(word)
    } else {
        double_from(word, first, second)
    }
}
