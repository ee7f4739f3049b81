//! The lines of a report by names.

use crate::named::memory_of;
use hex_digits::{byte, word};
use marked_text::{Markup, Piece};
use no_memory::Memory;
use report_lines::{Access, Cause, Form, Kind, Line, Open, Report, Set, Space};
use report_program::{Functions, Program};
use std::alloc::Global;
use symbol_lists::{Names, Place};

/// The first name of an address, and how far behind it the address stands.
fn name_of<'x>(names: &'x Names<'_>, place: Place, address: u16) -> Option<(&'x [u8], u16)> {
    let base = names.base_of(place, address)?;
    for symbol in names.list.iter() {
        if symbol.is_name(place, base, address) {
            return Some((symbol.name, address.wrapping_sub(base)));
        }
    }
    None
}

/// Writes a name, and how far behind it an address stands.
fn put_name(text: &mut Markup, (name, offset): (&[u8], u16)) {
    text.put_all(&[Piece::Bytes(name)]);
    if offset > 0 {
        text.put_all(&[Piece::Marks("+"), Piece::Number(usize::from(offset))]);
    }
}

/// Writes an address by its name, if it has one.
fn put_address(text: &mut Markup, names: &Names<'_>, place: Place, address: u16) {
    match name_of(names, place, address) {
        Some(name) => put_name(text, name),
        None => text.put_all(&[Piece::Address(address)]),
    }
}

/// Writes an address of the program by its name.
fn put_pc(text: &mut Markup, names: &Names<'_>, address: u16) {
    put_address(text, names, Place::Code, address)
}

/// Writes a number of a set by its name, if it has one.
fn put_number(text: &mut Markup, names: &Names<'_>, place: Place, digits: &[u8]) {
    let name = match byte(digits).or(word(digits)) {
        Some(address) => name_of(names, place, address),
        None => None,
    };
    match name {
        Some(name) => put_name(text, name),
        None => text.put_all(&[Piece::Bytes(digits)]),
    }
}

/// Writes a set of addresses by their names. Of a run the first number has a name.
fn put_set(text: &mut Markup, names: &Names<'_>, place: Place, set: &Set<'_>) {
    let between = match set.form {
        Form::List => b',',
        _ => b'/',
    };
    let mut is_first = true;
    for part in set.text.split(|byte| *byte == between) {
        if is_first {
            put_number(text, names, place, part);
        } else if between == b',' {
            text.put(",");
            put_number(text, names, place, part);
        } else {
            text.put_all(&[Piece::Marks("/"), Piece::Bytes(part)]);
        }
        is_first = false;
    }
}

/// The address that a text begins with, as an operand has it, and how many digits.
fn address_at(text: &[u8], is_number: bool) -> Option<(Place, u16, usize)> {
    let place = if is_number { Place::Any } else { Place::Code };
    match text {
        [a, b, c, d, b'h', ..] => Some((place, word(&[*a, *b, *c, *d])?, 4)),
        [a, b, b'h', ..] if !is_number => Some((Place::Internal, byte(&[*a, *b])?, 2)),
        _ => None,
    }
}

/// Writes the text of an instruction, with names in the place of the addresses that it tells.
fn put_instr(text: &mut Markup, names: &Names<'_>, instr: &[u8]) {
    let mut skipped = 0usize;
    let mut front = b' ';
    for k in 0..instr.len() {
        if skipped > 0 {
            skipped = skipped.wrapping_sub(1);
        } else if !front.is_ascii_alphanumeric()
            && let Some((place, address, digits)) = address_at(&instr[k..], front == b'#')
            && let Some(name) = name_of(names, place, address)
        {
            put_name(text, name);
            skipped = digits;
        } else {
            text.put_all(&[Piece::Bytes(&instr[k..k + 1])]);
        }
        front = instr[k];
    }
}

/// The words of an access in front of its addresses.
fn access_words(access: &Access<'_>) -> [Piece<'static>; 2] {
    let space = match access.space {
        Space::Mem => "mem ",
        Space::Ram => "ram ",
        Space::Sfr => "sfr ",
        Space::Xram => "xram ",
        Space::Code => "code ",
    };
    let kind = match access.kind {
        Kind::ReadOne => "r1 ",
        Kind::ReadTwo => "r2 ",
        Kind::WriteOne => "w1 ",
        Kind::WriteTwo => "w2 ",
    };
    [Piece::Marks(space), Piece::Marks(kind)]
}

/// Writes the line of an access, and one that leaves out the instruction.
fn put_access(text: &mut Markup, names: &Names<'_>, access: &Access<'_>) {
    let place = memory_of(access.space);
    text.put("M ");
    put_pc(text, names, access.pc);
    text.put(" ");
    text.put_all(&access_words(access));
    put_set(text, names, place, &access.at);
    text.put("\nA ");
    text.put_all(&access_words(access));
    put_set(text, names, place, &access.at)
}

/// Writes the line of an open site.
fn put_open(text: &mut Markup, names: &Names<'_>, open: &Open<'_>) {
    text.put("O ");
    put_pc(text, names, open.pc);
    match open.cause {
        Cause::Fetch => text.put(" Fetch"),
        Cause::Targets(set) => {
            text.put(" Targets ");
            put_set(text, names, Place::Code, &set)
        }
        Cause::Store(set) => {
            text.put(" Store ");
            put_set(text, names, Place::Any, &set)
        }
    }
}

/// Writes a line, without the bytes of an instruction.
fn put_line(text: &mut Markup, names: &Names<'_>, line: &Line<'_>) {
    match line {
        Line::Edge(edge) => {
            text.put("E ");
            put_pc(text, names, edge.from);
            text.put(" ");
            put_pc(text, names, edge.to)
        }
        Line::Instr(instr) => {
            text.put("I ");
            put_pc(text, names, instr.pc);
            text.put(" ");
            put_instr(text, names, instr.text)
        }
        Line::Access(access) => put_access(text, names, access),
        Line::Open(open) => put_open(text, names, open),
        Line::Stack(stack) => {
            text.put("S ");
            put_pc(text, names, stack.pc);
            text.put_all(&[Piece::Marks(" "), Piece::Bytes(stack.at.text)])
        }
    }
    text.put("\n")
}

/// The lines of a report with names in the place of addresses, and a line of each function: `F put`.
pub fn named_text(
    alloc: Global,
    report: &Report<'_>,
    names: &Names<'_>,
) -> Result<Vec<u8>, Memory> {
    let program = Program::of(alloc, report)?;
    let functions = Functions::of(alloc, &program, report, None)?;
    let mut text = Markup::new(alloc);
    for function in functions.by_entry.values() {
        text.put("F ");
        put_pc(&mut text, names, function.entry);
        text.put("\n");
    }
    for line in report.lines.iter() {
        put_line(&mut text, names, line);
    }
    text.finish()
}
