//! The other parts of a state: the stack pointer, SR, bits, and registers.

ghost use Rattle.std.specs.Prelude.{◌≡◌};
ghost use Rattle.msp430_fields.specs.Parts as parts;

use crate::places::Registers;
use entry_value::{Entry, Word};
use msp430_state::Status;
use std::alloc::AllocError;
use text_fields::{Field, cut};
use value_bits::Tri;
use value_set::Vs16;
use value_text::{
    is_even_set, push_bit, push_bits, push_relation, push_word, push_word_set, read_bit, read_bits,
    read_relation, read_word, read_word_set,
};

/// The stack pointer: even words.
#[derive(Clone, Copy)]
pub(crate) struct SpField;

impl Field for SpField {
    type Value = Vs16;

    ghost use Rattle.msp430_fields.specs.Parts.{sp_field};

    ghost field = { λ sp. sp_field };

    fn read(&self, text: &[u8]) -> Option<Vs16> {
        let set = read_word_set(text)?;
        if is_even_set(&set) { Some(set) } else { None }
    }

    fn push(&self, value: &Vs16, out: &mut Vec<u8>) -> Result<(), AllocError> {
        push_word_set(out, value)
    }
}

/// Whether a relation is one of SR: there is none outside of an interrupt's frame.
fn is_own_in(framed: bool, entry: &Option<Entry>) -> bool
    ensures { result ≡ parts.is_own_in framed entry.now }
{
    match entry {
        None => true,
        Some(entry) => framed && entry.place == 2 && entry.and & 0xFE00 == 0xFE00 && entry.or < 512,
    }
}

/// The bits of SR, and perhaps a relation.
fn status_parts(text: &[u8]) -> Option<([Tri; 9], Option<Entry>)>
    ensures { result ≡ parts.status_tailed.value text.now }
{
    match cut(text, b'@') {
        None => Some((read_bits(text)?, None)),
        Some((bits, relation)) => {
            Some((read_bits(bits)?, Some(read_relation(Registers, relation)?)))
        }
    }
}

/// SR, in an interrupt's frame or in none.
#[derive(Clone, Copy)]
pub(crate) struct StatusField {
    pub(crate) framed: bool,
}

impl Field for StatusField {
    type Value = Status;

    ghost use Rattle.msp430_fields.specs.Parts.{status_field};

    ghost field = { λ status. status_field status.framed };

    fn read(&self, text: &[u8]) -> Option<Status> {
        let (bits, entry) = status_parts(text)?;
        if is_own_in(self.framed, &entry) {
            Some(Status { bits, entry })
        } else {
            None
        }
    }

    fn push(&self, value: &Status, out: &mut Vec<u8>) -> Result<(), AllocError> {
        push_bits(value.bits.as_slice(), out)?;
        match &value.entry {
            None => Ok(()),
            Some(entry) => {
                out.push(b'@')?;
                push_relation(Registers, entry, out)
            }
        }
    }
}

/// A known bit.
#[derive(Clone, Copy)]
pub(crate) struct BitField;

impl Field for BitField {
    type Value = Tri;

    ghost use Rattle.value_text.specs.Bits.{bit_field};

    ghost field = { λ bit. bit_field };

    fn read(&self, text: &[u8]) -> Option<Tri> {
        read_bit(text)
    }

    fn push(&self, value: &Tri, out: &mut Vec<u8>) -> Result<(), AllocError> {
        push_bit(*value, out)
    }
}

/// A register, in an interrupt's frame or in none.
#[derive(Clone, Copy)]
pub(crate) struct WordField {
    pub(crate) framed: bool,
}

impl Field for WordField {
    type Value = Word;

    ghost use Rattle.msp430_fields.specs.Parts.{register_value};

    ghost field = { λ word. register_value word.framed };

    fn read(&self, text: &[u8]) -> Option<Word> {
        read_word(Registers, self.framed, text)
    }

    fn push(&self, value: &Word, out: &mut Vec<u8>) -> Result<(), AllocError> {
        push_word(Registers, value, out)
    }
}
