//! Numbers and operands.

ghost use Rattle.std.specs.Prelude.{◌≡◌, ◌≤◌, ◌+◌, ◌++◌, length};
ghost use Rattle.mcs51_text.specs.Text.{immediate_text, working_text, memory_text, source_text, place_text, mask_text, comparison_text, counter_text, external_text, target_text};

use crate::names::{pointer_name, register_name};
use arrayvec::ArrayString;
use hex_digits::{push_byte, push_word};
use mcs51_decode::{Comparison, Counter, External, Instr, Mask, Memory, Place, Source, Working};

/// Adds an immediate byte.
pub fn push_immediate(text: &mut ArrayString<40>, value: u8)
    requires { length text.old.bytes + 4 ≤ 40 }
    ensures bytes { text.new.bytes ≡ text.old.bytes ++ immediate_text value }
    ensures len { length text.new.bytes ≡ length text.old.bytes + 4 }
{
    text.push_str("#");
    push_byte(text, value);
}

/// Adds an operand at or in a working register.
pub fn push_working(text: &mut ArrayString<40>, working: Working)
    requires { length text.old.bytes + 3 ≤ 40 }
    ensures bytes { text.new.bytes ≡ text.old.bytes ++ working_text working }
    ensures len { length text.new.bytes ≤ length text.old.bytes + 3 }
{
    match working {
        Working::Indirect(pointer) => text.push_str(pointer_name(pointer)),
        Working::Register(register) => text.push_str(register_name(register)),
    }
}

/// Adds a byte of memory.
pub fn push_memory(text: &mut ArrayString<40>, memory: Memory)
    requires { length text.old.bytes + 3 ≤ 40 }
    ensures bytes { text.new.bytes ≡ text.old.bytes ++ memory_text memory }
    ensures len { length text.new.bytes ≤ length text.old.bytes + 3 }
{
    match memory {
        Memory::Direct(direct) => push_byte(text, direct),
        Memory::Working(working) => push_working(text, working),
    }
}

/// Adds a source.
pub fn push_source(text: &mut ArrayString<40>, source: Source)
    requires { length text.old.bytes + 4 ≤ 40 }
    ensures bytes { text.new.bytes ≡ text.old.bytes ++ source_text source }
    ensures len { length text.new.bytes ≤ length text.old.bytes + 4 }
{
    match source {
        Source::Immediate(value) => push_immediate(text, value),
        Source::Memory(memory) => push_memory(text, memory),
    }
}

/// Adds a byte that is written.
pub fn push_place(text: &mut ArrayString<40>, place: Place)
    requires { length text.old.bytes + 3 ≤ 40 }
    ensures bytes { text.new.bytes ≡ text.old.bytes ++ place_text place }
    ensures len { length text.new.bytes ≤ length text.old.bytes + 3 }
{
    match place {
        Place::Accumulator => text.push_str("A"),
        Place::Memory(memory) => push_memory(text, memory),
    }
}

/// Adds a mask.
pub fn push_mask(text: &mut ArrayString<40>, mask: Mask)
    requires { length text.old.bytes + 4 ≤ 40 }
    ensures bytes { text.new.bytes ≡ text.old.bytes ++ mask_text mask }
    ensures len { length text.new.bytes ≤ length text.old.bytes + 4 }
{
    match mask {
        Mask::Accumulator => text.push_str("A"),
        Mask::Immediate(value) => push_immediate(text, value),
    }
}

/// Adds the two bytes that are compared.
pub fn push_comparison(text: &mut ArrayString<40>, comparison: Comparison)
    requires { length text.old.bytes + 8 ≤ 40 }
    ensures bytes { text.new.bytes ≡ text.old.bytes ++ comparison_text comparison }
    ensures len { length text.new.bytes ≤ length text.old.bytes + 8 }
{
    match comparison {
        Comparison::AccumulatorImmediate(value) => {
            text.push_str("A,");
            push_immediate(text, value);
        }
        Comparison::AccumulatorDirect(direct) => {
            text.push_str("A,");
            push_byte(text, direct);
        }
        Comparison::WorkingImmediate { operand, value } => {
            push_working(text, operand);
            text.push_str(",");
            push_immediate(text, value);
        }
    }
}

/// Adds a byte that is lowered.
pub fn push_counter(text: &mut ArrayString<40>, counter: Counter)
    requires { length text.old.bytes + 3 ≤ 40 }
    ensures bytes { text.new.bytes ≡ text.old.bytes ++ counter_text counter }
    ensures len { length text.new.bytes ≤ length text.old.bytes + 3 }
{
    match counter {
        Counter::Direct(direct) => push_byte(text, direct),
        Counter::Register(register) => text.push_str(register_name(register)),
    }
}

/// Adds a byte of external memory.
pub fn push_external(text: &mut ArrayString<40>, external: External)
    requires { length text.old.bytes + 5 ≤ 40 }
    ensures bytes { text.new.bytes ≡ text.old.bytes ++ external_text external }
    ensures len { length text.new.bytes ≤ length text.old.bytes + 5 }
{
    match external {
        External::DataPointer => text.push_str("@DPTR"),
        External::Indirect(pointer) => text.push_str(pointer_name(pointer)),
    }
}

/// Adds the address that a jump or a call reaches.
pub fn push_target(text: &mut ArrayString<40>, pc: u16, instr: Instr)
    requires { length text.old.bytes + 5 ≤ 40 }
    ensures bytes { text.new.bytes ≡ text.old.bytes ++ target_text pc instr }
    ensures len { length text.new.bytes ≤ length text.old.bytes + 5 }
{
    if let Some(target) = instr.target(pc) {
        push_word(text, target);
    }
}
