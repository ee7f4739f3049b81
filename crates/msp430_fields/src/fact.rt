//! What the flags say of a register.

ghost use Rattle.std.specs.Prelude.{◌≡◌, ◌<◌, ◌++◌, [], OnOk, slice_index_or};
ghost use Rattle.msp430_fields.specs.Facts as fields;
ghost use Rattle.msp430_fields.specs.Places.{register_field, register_rows};

use msp430_decode::Width;
use msp430_state::FlagFact;
use std::alloc::AllocError;
use text_fields::{Field, cut, number, push_name, push_number, read_name};

/// R4 to R15, by their numbers.
const REGISTERS: [(u16, &str); 12] = [
    (4, "R4"),
    (5, "R5"),
    (6, "R6"),
    (7, "R7"),
    (8, "R8"),
    (9, "R9"),
    (10, "R10"),
    (11, "R11"),
    (12, "R12"),
    (13, "R13"),
    (14, "R14"),
    (15, "R15"),
];

/// The name of one of them.
pub(crate) fn register_name(place: usize) -> &'static [u8]
    requires { place < 12 }
    ensures { result.now ≡ (slice_index_or register_rows place (0, [])).1 }
{
    REGISTERS[place].1.as_bytes()
}

/// The number of a register.
fn read_register(text: &[u8]) -> Option<u8>
    ensures { result ≡ register_field.value text.now }
{
    let register = read_name(REGISTERS.as_slice(), text)?;
    Some(register as u8)
}

/// Words or bytes.
fn read_width(text: &[u8]) -> Option<Width>
    ensures { result ≡ fields.width_field.value text.now }
{
    if text == b"w".as_slice() {
        Some(Width::Word)
    } else if text == b"b".as_slice() {
        Some(Width::Byte)
    } else {
        None
    }
}

/// What the sum is compared with, and the width.
fn read_compared(text: &[u8]) -> Option<(u16, Width)>
    ensures { result ≡ fields.compared_field.value text.now }
{
    let (compared, width) = cut(text, b'.')?;
    Some((number(compared, 4)?, read_width(width)?))
}

/// What is added, and these.
fn read_numbers(text: &[u8]) -> Option<(u16, (u16, Width))>
    ensures { result ≡ fields.numbers_field.value text.now }
{
    let (added, compared) = cut(text, b':')?;
    Some((number(added, 4)?, read_compared(compared)?))
}

/// A register, and these.
fn read_parts(text: &[u8]) -> Option<(u8, (u16, (u16, Width)))>
    ensures { result ≡ fields.untested.value text.now }
{
    let (register, numbers) = cut(text, b'+')?;
    Some((read_register(register)?, read_numbers(numbers)?))
}

/// Whether both numbers are of a width.
fn are_of_width(width: Width, added: u16, compared: u16) -> bool
    ensures { result ≡ fields.are_of_width width added compared }
{
    match width {
        Width::Word => true,
        Width::Byte => added < 256 && compared < 256,
    }
}

/// A fact.
fn read_fact(text: &[u8]) -> Option<FlagFact>
    ensures { result ≡ fields.some_fact.value text.now }
{
    let (register, (added, (compared, width))) = read_parts(text)?;
    if are_of_width(width, added, compared) {
        Some(FlagFact {
            register,
            added,
            compared,
            width,
        })
    } else {
        None
    }
}

/// Adds the name of a register.
fn push_register(register: u8, out: &mut Vec<u8>) -> Result<(), AllocError>
    ensures { OnOk result (out.new.items ≡ out.old.items ++ register_field.text register) }
{
    push_name(REGISTERS.as_slice(), register as u16, out)
}

/// Adds a width.
fn push_width(width: Width, out: &mut Vec<u8>) -> Result<(), AllocError>
    ensures { OnOk result (out.new.items ≡ out.old.items ++ fields.width_text width) }
{
    match width {
        Width::Word => out.extend_from_slice(b"w"),
        Width::Byte => out.extend_from_slice(b"b"),
    }
}

/// Adds a fact.
fn push_fact(fact: &FlagFact, out: &mut Vec<u8>) -> Result<(), AllocError>
    ensures { OnOk result (out.new.items ≡ out.old.items ++ fields.some_fact.text fact.now) }
{
    push_register(fact.register, out)?;
    out.push(b'+')?;
    push_number(out, fact.added, 4)?;
    out.push(b':')?;
    push_number(out, fact.compared, 4)?;
    out.push(b'.')?;
    push_width(fact.width, out)
}

/// Perhaps a fact.
#[derive(Clone, Copy)]
pub(crate) struct FactField;

impl Field for FactField {
    type Value = Option<FlagFact>;

    ghost use Rattle.msp430_fields.specs.Facts.{fact_field};

    ghost field = { λ fact. fact_field };

    fn read(&self, text: &[u8]) -> Option<Option<FlagFact>> {
        if text == b"-".as_slice() {
            return Some(None);
        }
        Some(Some(read_fact(text)?))
    }

    fn push(&self, value: &Option<FlagFact>, out: &mut Vec<u8>) -> Result<(), AllocError> {
        match value {
            None => {
                out.push(b'-')?;
                Ok(())
            }
            Some(fact) => push_fact(fact, out),
        }
    }
}
