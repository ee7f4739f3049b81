//! How control goes from an instruction to another one, as far as a report lets one tell.

use hex_digits::word;
use report_lines::{Instr, cut};

/// How control goes along an edge.
#[derive(Clone, Copy, PartialEq, Eq)]
pub enum Way {
    /// To the instruction behind.
    Next,
    Jump,
    Call,
    /// Back from a call.
    Return,
    /// Into the handler of an interrupt.
    Interrupt,
    /// Back from the handler of an interrupt.
    Resume,
    /// The report doesn't tell.
    Plain,
}

/// Where an instruction sends control, by its text.
#[derive(Clone, Copy)]
pub enum Flow {
    /// Behind it.
    Straight,
    /// There or behind it.
    Branch(u16),
    /// There, if the text tells where.
    Jump(Option<u16>),
    /// There, if the text tells where, and some day back behind it.
    Call(Option<u16>),
    Return,
    Resume,
}

/// The address that an operand such as `F004h` names.
fn named(operand: &[u8]) -> Option<u16> {
    match operand {
        [digits @ .., b'h'] => word(digits),
        _ => None,
    }
}

/// The address that an operand such as `#F004h` names.
fn immediate(operand: &[u8]) -> Option<u16> {
    match operand {
        [b'#', digits @ ..] => named(digits),
        _ => None,
    }
}

/// The operand behind the last comma.
fn last_operand(operands: &[u8]) -> &[u8] {
    let mut last = operands;
    for operand in operands.split(|byte| *byte == b',') {
        last = operand;
    }
    last
}

/// A branch to the last operand.
fn branch(operands: &[u8]) -> Flow {
    match named(last_operand(operands)) {
        Some(target) => Flow::Branch(target),
        None => Flow::Straight,
    }
}

/// What an instruction with any other word does: on the MSP430 PC may be its destination.
fn data_flow(word: &[u8], operands: &[u8]) -> Flow {
    if last_operand(operands) != b"PC".as_slice() {
        return Flow::Straight;
    }
    match cut(operands, b',') {
        Some((source, _)) if word == b"MOV".as_slice() => {
            if source == b"@SP+".as_slice() {
                Flow::Return
            } else {
                Flow::Jump(immediate(source))
            }
        }
        _ => Flow::Jump(None),
    }
}

/// Whether a word is one of these.
fn is_among(word: &[u8], words: &[&[u8]]) -> bool {
    for other in words {
        if *other == word {
            return true;
        }
    }
    false
}

/// The words of jumps that are always taken.
const JUMPS: [&[u8]; 4] = [b"JMP", b"SJMP", b"AJMP", b"LJMP"];

/// The words of jumps that may be taken.
const BRANCHES: [&[u8]; 14] = [
    b"JNE", b"JEQ", b"JNC", b"JC", b"JN", b"JGE", b"JL", b"JZ", b"JNZ", b"JB", b"JNB", b"JBC",
    b"CJNE", b"DJNZ",
];

/// The words of instructions that leave their last operand as it is, so PC too.
const READERS: [&[u8]; 6] = [b"CMP", b"CMP.B", b"BIT", b"BIT.B", b"PUSH", b"PUSH.B"];

/// Where an instruction sends control.
pub fn flow_of(text: &[u8]) -> Flow {
    let (word, operands) = cut(text, b' ').unwrap_or((text, b""));
    if is_among(word, JUMPS.as_slice()) {
        Flow::Jump(named(operands))
    } else if is_among(word, BRANCHES.as_slice()) {
        branch(operands)
    } else if is_among(word, READERS.as_slice()) {
        Flow::Straight
    } else if word == b"CALL".as_slice() {
        Flow::Call(immediate(operands))
    } else if word == b"ACALL".as_slice() || word == b"LCALL".as_slice() {
        Flow::Call(named(operands))
    } else if word == b"RET".as_slice() {
        Flow::Return
    } else if word == b"RETI".as_slice() {
        Flow::Resume
    } else {
        data_flow(word, operands)
    }
}

/// The address behind an instruction.
pub fn behind(instr: &Instr<'_>) -> u16 {
    instr.pc.wrapping_add(instr.len)
}

/// The way to an address, where the text of the instruction alone tells it.
pub fn told_way(instr: &Instr<'_>, to: u16) -> Option<Way> {
    let next = to == behind(instr);
    match flow_of(instr.text) {
        Flow::Straight => Some(if next { Way::Next } else { Way::Interrupt }),
        Flow::Branch(_) if next => Some(Way::Next),
        Flow::Branch(target) => Some(own(target == to, Way::Jump)),
        Flow::Jump(Some(target)) => Some(own(target == to, Way::Jump)),
        Flow::Call(Some(target)) => Some(own(target == to, Way::Call)),
        Flow::Jump(None) | Flow::Call(None) | Flow::Return | Flow::Resume => None,
    }
}

/// The instruction's own way, or else an interrupt's.
fn own(is_own: bool, way: Way) -> Way {
    if is_own { way } else { Way::Interrupt }
}
