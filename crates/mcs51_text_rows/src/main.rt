//! Rows of the MCS-51's instructions as bytes and as texts: a line of the standard input is a row, and the standard output
//! says how many hold and which don't. Worked out from Intel's MCS-51 Programmer's Guide and Instruction Set.
//!
//! - A row has an address, the digits of the bytes there, and the text of the instruction. It holds where the bytes are
//!   decoded to an instruction of this text, which is encoded to just these bytes, and which goes where its text ends with
//!   an address.
//! - In place of the text stands why there is no instruction at the address: `Excluded`, or `OffImage` and the first
//!   address that has no byte (two dots). `none`: the bytes are not those of one instruction.
//! - `lengths`: an opcode, and how long the instructions with it and with each of the 15 next ones are; 0 is none.
#![tactic(auto)]

mod lengths;
mod refusing;

use crate::lengths::are_lengths;
use crate::refusing::is_refused;
use hex_digits::word;
use mcs51_decode::{Instr, decode, encode, from_bytes};
use mcs51_text::text;
use row_parts::{CodeRow, tell};
use std::alloc::{AllocError, Global};
use std::io;

/// The address that the text of a jump or a call ends with.
fn target_in(text: &str) -> Option<u16> {
    let operands = text.split_once(' ')?.1;
    let last = match operands.rsplit_once(',') {
        Some((_, last)) => last,
        None => operands,
    };
    word(last.strip_suffix('h')?.as_bytes())
}

/// Whether an instruction of this length is that of a row.
fn is_instr(row: &CodeRow, instr: &Instr, length: u8) -> bool {
    length as usize == row.bytes.len()
        && instr.length() == length
        && encode(instr).as_slice() == row.bytes.as_slice()
        && from_bytes(&row.bytes) == Some(*instr)
        && text(instr, row.pc).as_str() == row.rest
        && instr.target(row.pc) == target_in(row.rest)
}

/// Whether a line holds. One of another form doesn't.
fn holds(alloc: Global, line: &str) -> Result<bool, AllocError> {
    if let Some(rest) = line.strip_prefix("lengths ") {
        return are_lengths(alloc, rest);
    }
    let Some(row) = CodeRow::of(alloc, line)? else {
        return Ok(false);
    };
    if row.rest == "none" {
        return Ok(from_bytes(&row.bytes).is_none());
    }
    Ok(match decode(&row.image, row.pc) {
        Ok((instr, length)) => is_instr(&row, &instr, length),
        Err(refusal) => is_refused(refusal, row.rest),
    })
}

fn main(rt: HostRuntime) -> io::Result<()> {
    let alloc = rt.alloc();
    tell(rt, |line| Ok(Some(holds(alloc, line)?)))
}
