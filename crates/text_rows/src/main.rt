//! Rows of texts: the standard output says how many lines of the standard input hold, and which don't.
//!
//! A line is `KIND ASKED > ANSWER`. It holds where what is asked has this answer. In a line `\n`, `\r` and `\t` are what they
//! are in Rust, and `|` parts the texts of a row.
//!
//! - `image CHIP TEXT`: the fault of an image text, in one piece and byte by byte. `front CHIP TEXT`: that of a text which a
//!   record of the reset vector and the end record stand behind. `byte AT` and `meets LO COUNT` ask the last image. The chips are
//!   `msp430` and `mirrored`, which have RAM from 0200h to 09FFh and from 1100h to 38FFh, with 0200h to 09FFh as a mirror, and
//!   `mcs51`.
//! - `pieces blank TEXT|..` and `pieces second TEXT|..`: what a reader of image texts says of each piece, and whether the image
//!   has ended; blank lines stand behind it, or a second text.
//! - `script TEXT`: the numbers of a script, or its fault, in two pieces wherever it is cut, and byte by byte.
//!   `feeds TEXT|..`: what a reader of scripts says of each piece, and at the end.
//! - `made CHIP COUNT` and `size CHIP COUNT`: a made program of so many functions, and how many bytes it has.
//! - `report TEXT`: the lines and the summary of a report, or the line that is refused. `stack TEXT`: the least and the greatest
//!   number of the sets in its S lines.
//! - `symbols TEXT`: the symbols of a list, each with its memory, its address, its bytes and its name, or the line that is refused.
//!   `named MEMORY ADDRESS TEXT`: the names of an address by a list, and how far behind them it stands.
//! - `parts COUNT TEXT|..`: whether sinks get these parts, so many times, as they came. `fault CALL COUNT TEXT|..`: what was
//!   written where a write fails. `counted COUNT`: the same of numbers as parts. `whole TEXT`: the same of a text of bytes.
//! - `reads PIECE CALLS TEXT`: what reads of a source in memory give, so many bytes each, and `writes PIECE ROOM CALLS TEXT|..`:
//!   what a sink says of each text, and what it holds. Behind `!` it is one write. These calls fail; at `-` the stream is clean.
//! - `run BASE STRIDE COUNT` and `octets BASE STRIDE COUNT`: a set, as a line of a report has it.
//! - `each SITE,..`, `ways BASE STRIDE COUNT` and `either BEHIND TARGET`: ways from F000h to a set of addresses, and of a jump
//!   that goes on with 1 and jumps with 2.
//! - `call KEPT SITE SITE,..` and `return END TARGET SITE,..`: the call string behind them.
//! - `choices NUMBER,.. OPTIONS,..|..`: how many choices there are, which options they choose, and how many the list has then,
//!   before what was used is left. Behind `=` a question is asked. Else it is asked if something is so, which it isn't at `-`.
//! - `word DIGITS` and `byte-of DIGITS`: a number. `digits NUMBER NUMBER`: a byte and a word in digits.
//! - `few NUMBER`, `sequence NUMBER` and `instr two DIGITS`: lists of numbers. `same ITEM|ITEM`: whether two items are the
//!   same. `refusal`: what an allocation that is refused comes to.
//!
//! The first line of the standard input goes through the standard streams.
#![tactic(auto)]

mod images;
mod lists;
mod memory_streams;
mod numbers;
mod reports;
mod rows;
mod scripts;
mod symbols;
mod texts;
mod ways;

use crate::rows::Rows;
use row_parts::tell;
use std::io;
use vsa_io::{Source, StdinSource, StdoutSink, write_all};

/// How many bytes the first line has, with its line feed.
const FIRST_LINE: usize = 7;

/// Writes what the standard input begins with.
fn pass_on(rt: &HostRuntime) {
    let mut buffer = [0u8; FIRST_LINE];
    if let Ok(count) = StdinSource::new(rt).read(&mut buffer) {
        let _ = write_all(&mut StdoutSink::new(rt), buffer.get(..count).unwrap_or(&[]));
    }
}

fn main(rt: HostRuntime) -> io::Result<()> {
    let alloc = rt.alloc();
    pass_on(&rt);
    let mut rows = Rows::new();
    tell(rt, |line| rows.take(alloc, line))
}
