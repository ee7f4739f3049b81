//! Numbers and operands.

ghost use Rattle.std.specs.Prelude.{◌≡◌, ◌≤◌, ◌+◌, ◌++◌, length};
ghost use Rattle.msp430_text.specs.Text.{indexed_text, source_text, destination_text};

use crate::names::{constant_name, register_name};
use arrayvec::ArrayString;
use hex_digits::push_word;
use msp430_decode::{Destination, Register, Source};

/// Adds an operand at a register plus a number.
fn push_indexed(text: &mut ArrayString<40>, register: Register, offset: u16)
    requires { length text.old.bytes + 10 ≤ 40 }
    ensures bytes { text.new.bytes ≡ text.old.bytes ++ indexed_text register offset }
    ensures len { length text.new.bytes ≤ length text.old.bytes + 10 }
{
    push_word(text, offset);
    text.push_str("(");
    text.push_str(register_name(register));
    text.push_str(")");
}

/// Adds a source whose extension word, if it has one, stands at an address.
pub fn push_source(text: &mut ArrayString<40>, at: u16, source: Source)
    requires { length text.old.bytes + 10 ≤ 40 }
    ensures bytes { text.new.bytes ≡ text.old.bytes ++ source_text at source }
    ensures len { length text.new.bytes ≤ length text.old.bytes + 10 }
{
    match source {
        Source::Register(register) => text.push_str(register_name(register)),
        Source::Indexed { register, offset } => push_indexed(text, register, offset),
        Source::Indirect(register) => {
            text.push_str("@");
            text.push_str(register_name(register));
        }
        Source::IndirectIncrement(register) => {
            text.push_str("@");
            text.push_str(register_name(register));
            text.push_str("+");
        }
        Source::Immediate(value) => {
            text.push_str("#");
            push_word(text, value);
        }
        Source::Symbolic(offset) => push_word(text, at.wrapping_add(offset)),
        Source::Absolute(address) => {
            text.push_str("&");
            push_word(text, address);
        }
        Source::Constant(constant) => text.push_str(constant_name(constant)),
    }
}

/// Adds a destination whose extension word, if it has one, stands at an address.
pub fn push_destination(text: &mut ArrayString<40>, at: u16, destination: Destination)
    requires { length text.old.bytes + 10 ≤ 40 }
    ensures bytes { text.new.bytes ≡ text.old.bytes ++ destination_text at destination }
    ensures len { length text.new.bytes ≤ length text.old.bytes + 10 }
{
    match destination {
        Destination::Register(register) => text.push_str(register_name(register)),
        Destination::Indexed { register, offset } => push_indexed(text, register, offset),
        Destination::Symbolic(offset) => push_word(text, at.wrapping_add(offset)),
        Destination::Absolute(address) => {
            text.push_str("&");
            push_word(text, address);
        }
    }
}
