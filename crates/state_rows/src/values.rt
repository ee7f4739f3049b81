//! Values, cells, ranges and nodes, read and written.

ghost use Rattle.std.specs.Prelude.{ℕ, Bool, true, false, List, [], ◌∷◌, ◌≤◌, codes};
ghost use Rattle.text_fields.specs.Fields.{one_named};

use crate::parts::push_part;
use abs_memory::CellList;
use call_context::Node;
use entry_value::Cell;
use no_memory::Memory;
use node_fields::{push_node, read_exit, read_location};
use std::alloc::{AllocError, Global};
use text_fields::{push_name, read_name};
use value_bits::Tri;
use value_text::{
    Places, RamField, is_even_set, push_bits, push_cells, push_ranges, push_word, read_bits,
    read_byte_set, read_cells, read_ranges, read_word, read_word_set,
};

/// Places of a chip with three of them, whose words have even places.
#[derive(Clone, Copy)]
struct Three;

const NAMES: [(u16, &str); 3] = [(0, "PC"), (2, "SR"), (4, "R4")];

/// The first and the last address of RAM.
const LO: u16 = 0x0200;

const HI: u16 = 0x03FF;

impl Places for Three {
    ghost width = { λ places. 4 };

    ghost names = { λ places.
        one_named ((0, codes "PC") ∷ (2, codes "SR") ∷ (4, codes "R4") ∷ []) };

    ghost keeps = { λ places cell. true };

    fn digits(&self) -> u8 {
        4
    }

    fn names_are_exact(&self) {}

    fn read_place(&self, text: &[u8]) -> Option<u16> {
        read_name(NAMES.as_slice(), text)
    }

    fn push_place(&self, place: u16, out: &mut Vec<u8>) -> Result<(), AllocError> {
        push_name(NAMES.as_slice(), place, out)
    }

    fn is_kept(&self, _cell: &Cell) -> bool {
        true
    }
}

/// Adds the word that a text is, in an interrupt's frame or in none, and tells whether it is one.
fn push_word_of(out: &mut Vec<u8>, framed: bool, text: &[u8]) -> Result<bool, Memory> {
    let Some(word) = read_word(Three, framed, text) else {
        return Ok(false);
    };
    push_word(Three, &word, out)?;
    Ok(true)
}

/// Adds the cells of RAM that a text is, and tells whether it is some.
fn push_cells_of(alloc: Global, out: &mut Vec<u8>, text: &[u8]) -> Result<bool, Memory> {
    let ram = RamField::new(Three, true, LO, HI);
    let found: Option<CellList> = read_cells(alloc, ram, text)?;
    let Some(cells) = found else {
        return Ok(false);
    };
    push_cells(Three, &cells, out)?;
    Ok(true)
}

/// Adds the ranges of RAM that a text is, and tells whether it is some.
fn push_ranges_of(alloc: Global, out: &mut Vec<u8>, text: &[u8]) -> Result<bool, Memory> {
    let Some(ranges) = read_ranges(alloc, 4, LO, HI, text)? else {
        return Ok(false);
    };
    push_ranges(4, &ranges, out)?;
    Ok(true)
}

/// Adds the three bits that a text is, and tells whether it is some.
fn push_bits_of(out: &mut Vec<u8>, text: &[u8]) -> Result<bool, Memory> {
    let found: Option<[Tri; 3]> = read_bits(text);
    let Some(bits) = found else {
        return Ok(false);
    };
    push_bits(bits.as_slice(), out)?;
    Ok(true)
}

/// Adds a node without its letter, if there is one. Its stack pointer has so many digits.
fn push_node_of(out: &mut Vec<u8>, node: Option<Node>, digits: u8) -> Result<bool, Memory>
    requires { digits ≤ 4 }
{
    let Some(node) = node else {
        return Ok(false);
    };
    let mut text = Vec::new(*out.allocator());
    push_node(&mut text, &node, digits)?;
    out.extend_from_slice(text.as_slice().get(2..).unwrap_or(&[]))?;
    Ok(true)
}

/// Whether the words that a text is are all even.
fn is_even(text: &[u8]) -> Option<bool> {
    match read_word_set(text) {
        Some(set) => Some(is_even_set(&set)),
        None => None,
    }
}

/// Adds a text where it is what a row asks.
fn push_if(out: &mut Vec<u8>, is: bool, text: &[u8]) -> Result<bool, Memory> {
    if is {
        out.extend_from_slice(text)?;
    }
    Ok(is)
}

/// Adds what a text is, and tells whether it is one of this kind.
pub fn push_value(
    alloc: Global,
    out: &mut Vec<u8>,
    kind: &str,
    asked: &str,
) -> Result<bool, Memory> {
    let text = asked.as_bytes();
    match kind {
        "location" => push_node_of(out, read_location(text, 4), 4),
        "exit" => push_node_of(out, read_exit(text, 2), 2),
        "word" => push_word_of(out, true, text),
        "plain" => push_word_of(out, false, text),
        "bytes" => push_if(out, read_byte_set(text).is_some(), text),
        "odd" => push_if(out, is_even(text) == Some(false), text),
        "even" => push_if(out, is_even(text) == Some(true), text),
        "cells" => push_cells_of(alloc, out, text),
        "ranges" => push_ranges_of(alloc, out, text),
        "bits" => push_bits_of(out, text),
        _ => Ok(push_part(out, kind, asked)?),
    }
}
