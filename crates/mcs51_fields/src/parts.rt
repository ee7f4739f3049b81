//! Bytes, PSW, and which levels may be in service.

ghost use Rattle.std.specs.Prelude.{◌≡◌, ◌≤◌};
ghost use Rattle.mcs51_fields.specs.Facts as facts;
ghost use Rattle.mcs51_fields.specs.Parts as parts;

use crate::places::Remembered;
use entry_value::{Byte, Entry};
use mcs51_state::{Levels, Status};
use std::alloc::AllocError;
use text_fields::{Field, cut, number, push_number};
use value_bits::Tri;
use value_set::Vs8;
use value_text::{
    push_bits, push_byte, push_byte_set, push_relation, read_bits, read_byte, read_byte_set,
    read_relation,
};

/// The stack pointer.
#[derive(Clone, Copy)]
pub(crate) struct SpField;

impl Field for SpField {
    type Value = Vs8;

    ghost use Rattle.value_text.specs.Sets.{set_field};

    ghost field = { λ sp. set_field 2 };

    fn read(&self, text: &[u8]) -> Option<Vs8> {
        read_byte_set(text)
    }

    fn push(&self, value: &Vs8, out: &mut Vec<u8>) -> Result<(), AllocError> {
        push_byte_set(out, value)
    }
}

/// A register, in an interrupt's frame or in none.
#[derive(Clone, Copy)]
pub(crate) struct ByteField {
    pub(crate) framed: bool,
}

impl Field for ByteField {
    type Value = Byte;

    ghost use Rattle.mcs51_fields.specs.Parts.{byte_value};

    ghost field = { λ byte. byte_value byte.framed };

    fn read(&self, text: &[u8]) -> Option<Byte> {
        read_byte(Remembered, self.framed, text)
    }

    fn push(&self, value: &Byte, out: &mut Vec<u8>) -> Result<(), AllocError> {
        push_byte(Remembered, value, out)
    }
}

/// Whether a relation is that of a register to itself, with the bits that it doesn't hold in the AND mask alone.
fn is_own(place: u16, unheld: u16, entry: &Option<Entry>) -> bool
    ensures { result ≡ parts.is_own place unheld entry.now }
{
    match entry {
        None => true,
        Some(entry) => {
            entry.place == place && entry.and & unheld == unheld && entry.or & unheld == 0
        }
    }
}

/// A register with bits that it doesn't hold, in an interrupt's frame or in none.
#[derive(Clone, Copy)]
pub(crate) struct OwnField {
    pub(crate) place: u16,
    pub(crate) unheld: u16,
    pub(crate) framed: bool,
}

impl Field for OwnField {
    type Value = Byte;

    ghost use Rattle.mcs51_fields.specs.Parts.{own_value};

    ghost field = { λ byte. own_value byte.place byte.unheld byte.framed };

    fn read(&self, text: &[u8]) -> Option<Byte> {
        let byte = read_byte(Remembered, self.framed, text)?;
        if is_own(self.place, self.unheld, &byte.entry) {
            Some(byte)
        } else {
            None
        }
    }

    fn push(&self, value: &Byte, out: &mut Vec<u8>) -> Result<(), AllocError> {
        push_byte(Remembered, value, out)
    }
}

/// Whether a relation is one of PSW: there is none outside of an interrupt's frame.
fn is_psw_in(framed: bool, entry: &Option<Entry>) -> bool
    ensures { result ≡ parts.is_psw_in framed entry.now }
{
    (framed || entry.is_none()) && is_own(0x1D0, 3, entry)
}

/// The bits 7 to 2 of PSW. The bits 1 and 0 may be either.
fn read_psw_bits(text: &[u8]) -> Option<[Tri; 6]>
    ensures { result ≡ parts.psw_bits.value text.now }
{
    let bits: [Tri; 8] = read_bits(text)?;
    match bits {
        [Tri::Either, Tri::Either, ov, rs0, rs1, f0, ac, cy] => Some([ov, rs0, rs1, f0, ac, cy]),
        _ => None,
    }
}

/// The bits of PSW, and perhaps a relation.
fn status_parts(text: &[u8]) -> Option<([Tri; 6], Option<Entry>)>
    ensures { result ≡ parts.status_tailed.value text.now }
{
    match cut(text, b'@') {
        None => Some((read_psw_bits(text)?, None)),
        Some((bits, relation)) => {
            Some((
                read_psw_bits(bits)?,
                Some(read_relation(Remembered, relation)?),
            ))
        }
    }
}

/// PSW, in an interrupt's frame or in none.
#[derive(Clone, Copy)]
pub(crate) struct StatusField {
    pub(crate) framed: bool,
}

impl Field for StatusField {
    type Value = Status;

    ghost use Rattle.mcs51_fields.specs.Parts.{status_field};

    ghost field = { λ status. status_field status.framed };

    fn read(&self, text: &[u8]) -> Option<Status> {
        let (bits, entry) = status_parts(text)?;
        if is_psw_in(self.framed, &entry) {
            Some(Status { bits, entry })
        } else {
            None
        }
    }

    fn push(&self, value: &Status, out: &mut Vec<u8>) -> Result<(), AllocError> {
        let [ov, rs0, rs1, f0, ac, cy] = value.bits;
        let bits = [Tri::Either, Tri::Either, ov, rs0, rs1, f0, ac, cy];
        push_bits(bits.as_slice(), out)?;
        match &value.entry {
            None => Ok(()),
            Some(entry) => {
                out.push(b'@')?;
                push_relation(Remembered, entry, out)
            }
        }
    }
}

/// The levels of a digit.
fn levels_of(digit: u16) -> Levels
    ensures { result ≡ facts.levels_of digit }
{
    Levels {
        none: digit % 2 == 1,
        low: digit / 2 % 2 == 1,
        high: digit / 4 % 2 == 1,
        both: digit / 8 % 2 == 1,
    }
}

/// What a level adds to the digit, if it may be in service.
fn weight(may_serve: bool, value: u16) -> u16
    ensures value { result ≡ facts.weight may_serve value }
    ensures most { result ≤ value }
{
    if may_serve { value } else { 0 }
}

/// The digit of some levels.
fn digit_of(levels: &Levels) -> u16
    ensures { result ≡ facts.number_of levels.now }
{
    weight(levels.none, 1)
        + (weight(levels.low, 2) + (weight(levels.high, 4) + weight(levels.both, 8)))
}

/// Which levels may be in service.
#[derive(Clone, Copy)]
pub(crate) struct LevelsField;

impl Field for LevelsField {
    type Value = Levels;

    ghost use Rattle.mcs51_fields.specs.Facts.{levels_field};

    ghost field = { λ levels. levels_field };

    fn read(&self, text: &[u8]) -> Option<Levels> {
        let digit = number(text, 1)?;
        if 0 < digit {
            Some(levels_of(digit))
        } else {
            None
        }
    }

    fn push(&self, value: &Levels, out: &mut Vec<u8>) -> Result<(), AllocError> {
        push_number(out, digit_of(value), 1)
    }
}
