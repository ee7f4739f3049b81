//! Rows of the MSP430's instructions as bytes and as texts: a line of the standard input is a row, and the standard output
//! says how many hold and which don't. Worked out by hand from SLAU049, MSP430x1xx Family User's Guide, chapter 3.
//!
//! - A row has an address, the digits of the bytes there, and the text of the instruction. It holds where the bytes are
//!   decoded to an instruction of this text, which is encoded to just these bytes, and which jumps where its text says.
//! - In place of the text stands why there is no instruction at the address: `Excluded`, or `OffImage` and the first
//!   address that has no byte (two dots). `none`: the bytes are not those of one instruction.
//! - `words`: a word, and how many of it and the 32,767 next ones no instruction begins with. All others are decoded to
//!   instructions of just their bytes.
#![tactic(auto)]

ghost use Rattle.msp430_decode.specs.Table.{IsInstr};

mod all_words;
mod refusing;

use crate::all_words::are_excluded;
use crate::refusing::is_refused;
use hex_digits::word;
use msp430_decode::{Instr, decode, encode, from_bytes};
use msp430_text::text;
use row_parts::{CodeRow, tell};
use std::alloc::{AllocError, Global};
use std::io;

/// The address behind the name of a jump.
fn target_in(text: &str) -> Option<u16> {
    match text.split_once(' ') {
        Some((name, target)) if name.starts_with('J') => {
            word(target.strip_suffix('h')?.as_bytes())
        }
        _ => None,
    }
}

/// Whether an instruction of this length is that of a row.
fn is_instr(row: &CodeRow, instr: &Instr, length: u8) -> bool
    requires { IsInstr instr.now }
{
    length as usize == row.bytes.len()
        && instr.length() == length
        && encode(instr).as_slice() == row.bytes.as_slice()
        && from_bytes(&row.bytes) == Some(*instr)
        && text(instr, row.pc).as_str() == row.rest
        && instr.jump_target(row.pc) == target_in(row.rest)
}

/// Whether a line holds. One of another form doesn't.
fn holds(alloc: Global, line: &str) -> Result<bool, AllocError> {
    if let Some(rest) = line.strip_prefix("words ") {
        return are_excluded(alloc, rest);
    }
    let Some(row) = CodeRow::of(alloc, line)? else {
        return Ok(false);
    };
    if row.rest == "none" {
        return Ok(from_bytes(&row.bytes).is_none());
    }
    if row.pc % 2 == 1 {
        return Ok(false);
    }
    Ok(match decode(&row.image, row.pc) {
        Ok((instr, length)) => is_instr(&row, &instr, length),
        Err(refusal) => is_refused(refusal, row.rest),
    })
}

fn main(rt: HostRuntime) -> io::Result<()> {
    let alloc = rt.alloc();
    tell(rt, |line| Ok(Some(holds(alloc, line)?)))
}
