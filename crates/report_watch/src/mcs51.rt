//! What is seen of a report of the MCS-51.

use crate::watch::Variable;
use hex_digits::byte;
use report_lines::{Access, Instr, Line, Space, cut};
use std::alloc::Global;

/// What the accesses of an instruction to RAM are looked at for.
#[derive(Clone, Copy, PartialEq, Eq)]
enum Use {
    /// Its writes go to the stack.
    Pushes,
    /// Its reads are of the stack.
    Pops,
    /// It names a register, which it may read.
    Registers,
}

/// An instruction whose accesses are looked at.
#[derive(Clone, Copy)]
struct Site {
    pc: u16,
    purpose: Use,
}

/// What is seen of a report of the MCS-51, line by line. Where memory is short something is missed, and the report is as it
/// was.
#[derive(Drop)]
pub struct Mcs51Seen {
    sites: Vec<Site>,
    /// The first one whose accesses aren't behind the line: both stand in the order of addresses.
    next: usize,
    variables: Vec<Variable>,
    /// Which bytes of RAM are pushed or popped.
    stack: [bool; 256],
}

impl Mcs51Seen {
    /// Nothing is seen yet.
    pub fn new(alloc: Global) -> Mcs51Seen {
        Mcs51Seen {
            sites: Vec::new(alloc),
            next: 0,
            variables: Vec::new(alloc),
            stack: [false; 256],
        }
    }

    /// Notes a line.
    pub fn note(&mut self, line: &Line<'_>) {
        match line {
            Line::Instr(instr) => self.note_instr(instr),
            Line::Access(access) => self.note_access(access),
            _ => {}
        }
    }

    fn note_instr(&mut self, instr: &Instr<'_>) {
        let (name, operands) = cut(instr.text, b' ').unwrap_or((instr.text, b""));
        if let Some(purpose) = use_of(name, operands) {
            let pc = instr.pc;
            let _ = self.sites.push(Site { pc, purpose });
        }
        for operand in operands.split(|byte| *byte == b',') {
            if let Some(at) = place_of(name, operands, operand) {
                let _ = self.variables.push(Variable { at, pc: instr.pc });
            }
        }
    }

    /// The use of the instruction there, to which the lines have come.
    fn use_at(&mut self, pc: u16) -> Option<Use> {
        for site in self.sites[self.next.min(self.sites.len())..].iter() {
            if site.pc >= pc {
                return if site.pc == pc {
                    Some(site.purpose)
                } else {
                    None
                };
            }
            self.next = self.next.saturating_add(1);
        }
        None
    }

    fn note_access(&mut self, access: &Access<'_>) {
        if access.space != Space::Ram || access.at.least != access.at.greatest {
            return;
        }
        let (at, pc) = (access.at.least, access.pc);
        match self.use_at(pc) {
            Some(Use::Pushes) if access.kind.writes() => self.stack[usize::from(at % 256)] = true,
            Some(Use::Pops) if !access.kind.writes() => self.stack[usize::from(at % 256)] = true,
            Some(Use::Registers) if !access.kind.writes() => {
                let _ = self.variables.push(Variable { at, pc });
            }
            _ => {}
        }
    }

    /// The first byte that an instruction names or reads as a register, and that is in the stack too.
    pub fn overwritten(&self) -> Option<Variable> {
        for variable in self.variables.iter() {
            if self.stack[usize::from(variable.at % 256)] {
                return Some(*variable);
            }
        }
        None
    }
}

/// What the accesses of an instruction are looked at for.
fn use_of(name: &[u8], operands: &[u8]) -> Option<Use> {
    match name {
        b"PUSH" | b"ACALL" | b"LCALL" => Some(Use::Pushes),
        b"POP" | b"RET" | b"RETI" => Some(Use::Pops),
        _ if has_register(operands) => Some(Use::Registers),
        _ => None,
    }
}

/// Whether one of the operands is a register of a bank.
fn has_register(operands: &[u8]) -> bool {
    operands
        .split(|byte| *byte == b',')
        .any(|operand| matches!(operand, [b'R', b'0'..=b'7']))
}

/// Whether the operand of an instruction is a bit: those with bits alone, and all with CY beside it.
fn is_of_bits(name: &[u8], operands: &[u8]) -> bool {
    match name {
        b"SETB" | b"CLR" | b"CPL" | b"JB" | b"JNB" | b"JBC" => true,
        _ => operands
            .split(|byte| *byte == b',')
            .any(|operand| operand == b"C".as_slice()),
    }
}

/// The byte of RAM that an operand names, as `30h`, or as a bit of it.
fn place_of(name: &[u8], operands: &[u8], operand: &[u8]) -> Option<u16> {
    let digits = match operand {
        [b'/', digits @ .., b'h'] | [digits @ .., b'h'] => digits,
        _ => return None,
    };
    let number = byte(digits)?;
    if number >= 0x80 {
        return None;
    }
    Some(if is_of_bits(name, operands) {
        number / 8 % 16 + 0x20
    } else {
        number
    })
}
