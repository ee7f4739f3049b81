//! What is seen of a report of the MSP430.

use crate::watch::Variable;
use hex_digits::word;
use image::RamRange;
use report_lines::{Access, Instr, Kind, Line, Stack, cut};
use std::alloc::Global;

/// The byte of RAM at an address of RAM or of its mirror.
fn byte_of(ram: RamRange, at: u16) -> Option<u16> {
    if ram.lo <= at && at <= ram.hi {
        return Some(at);
    }
    match ram.mirror {
        Some((first, last)) if first <= at && at <= last => {
            Some(ram.lo.wrapping_add(at.wrapping_sub(first)))
        }
        _ => None,
    }
}

/// Where a stack begins in RAM that begins at this address. An empty one begins behind its place.
fn top_of(ram: RamRange, at: u16) -> u16 {
    match ram.mirror {
        Some((first, last)) if first <= at && at.wrapping_sub(1) <= last => {
            ram.lo.wrapping_add(at.wrapping_sub(first))
        }
        _ => at,
    }
}

/// A byte of RAM that an instruction names, perhaps by its address in the mirror.
#[derive(Clone, Copy)]
struct Named {
    byte: u16,
    variable: Variable,
}

/// How far a stack reaches in RAM, and the stack pointer there.
#[derive(Clone, Copy)]
struct Reach {
    low: u16,
    high: u16,
    pointer: u16,
}

/// What is seen of a report of the MSP430, line by line.
#[derive(Drop)]
pub struct Msp430Seen {
    ram: RamRange,
    /// The first instruction that allows interrupts, and the address behind it, where one may come.
    allows: Option<(u16, u16)>,
    /// How many lines there write a word. An interrupt's entry has two, and no instruction more than one there.
    words: usize,
    has_reti: bool,
    variables: Vec<Named>,
    /// The stack, where a stack pointer is known.
    stack: Option<Reach>,
}

impl Msp430Seen {
    /// Nothing is seen yet of a report with this RAM.
    pub fn new(alloc: Global, ram: RamRange) -> Msp430Seen {
        Msp430Seen {
            ram,
            allows: None,
            words: 0,
            has_reti: false,
            variables: Vec::new(alloc),
            stack: None,
        }
    }

    /// Notes a line.
    pub fn note(&mut self, line: &Line<'_>) {
        match line {
            Line::Instr(instr) => self.note_instr(instr),
            Line::Access(access) => self.note_access(access),
            Line::Stack(stack) => self.note_stack(stack),
            _ => {}
        }
    }

    fn note_instr(&mut self, instr: &Instr<'_>) {
        if instr.text == b"RETI".as_slice() {
            self.has_reti = true;
        }
        if self.allows.is_none() && allows_interrupts(instr.text) {
            self.allows = Some((instr.pc, instr.pc.wrapping_add(instr.len)));
        }
        for operand in instr.text.split(|byte| *byte == b',' || *byte == b' ') {
            if let [b'&', digits @ .., b'h'] = operand
                && let Some(at) = word(digits)
                && let Some(byte) = byte_of(self.ram, at)
            {
                let variable = Variable { at, pc: instr.pc };
                // Where memory is short a variable is missed, and the report is as it was.
                let _ = self.variables.push(Named { byte, variable });
            }
        }
    }

    fn note_access(&mut self, access: &Access<'_>) {
        if let Some((_, behind)) = self.allows
            && access.pc == behind
            && access.kind == Kind::WriteTwo
        {
            self.words = self.words.saturating_add(1);
        }
    }

    fn note_stack(&mut self, stack: &Stack<'_>) {
        if stack.at.is_whole() {
            return;
        }
        let here = Reach {
            low: top_of(self.ram, stack.at.least),
            high: top_of(self.ram, stack.at.greatest),
            pointer: stack.at.least,
        };
        self.stack = Some(match self.stack {
            None => here,
            Some(reach) => joined(reach, here),
        });
    }

    /// The first instruction that allows interrupts, where none comes behind it and no handler returns.
    pub fn allowed_in_vain(&self) -> Option<u16> {
        if self.has_reti || self.words > 1 {
            return None;
        }
        self.allows.map(|(pc, _)| pc)
    }

    /// The first variable within the stack, and the least stack pointer.
    pub fn overwritten(&self) -> Option<(Variable, u16)> {
        let stack = self.stack?;
        for named in self.variables.iter() {
            if stack.low <= named.byte && named.byte < stack.high {
                return Some((named.variable, stack.pointer));
            }
        }
        None
    }
}

/// How far two stacks reach.
fn joined(one: Reach, other: Reach) -> Reach {
    let lower = if other.low < one.low { other } else { one };
    Reach {
        low: lower.low,
        high: one.high.max(other.high),
        pointer: lower.pointer,
    }
}

/// The number of a constant such as `#8` and `#00D8h`.
fn constant_of(operand: &[u8]) -> Option<u16> {
    match operand {
        [b'#', digit] if digit.is_ascii_digit() => Some(u16::from(*digit).wrapping_sub(0x30)),
        [b'#', digits @ .., b'h'] => word(digits),
        _ => None,
    }
}

/// Whether an instruction sets GIE by a constant.
fn allows_interrupts(text: &[u8]) -> bool {
    let Some((name, operands)) = cut(text, b' ') else {
        return false;
    };
    let Some((source, place)) = cut(operands, b',') else {
        return false;
    };
    let sets = name.starts_with(b"BIS") || name.starts_with(b"MOV");
    sets && place == b"SR".as_slice() && constant_of(source).is_some_and(|number| number & 8 != 0)
}
