//! Rows of whole answers: words, an input, and the status and the text that come of them. The standard output says how many
//! lines of the standard input hold, and which don't.
//!
//! - `input TEXT` begins an input, and `+ LINE` adds a line to it. `feeds COUNT` adds line feeds, until it has so many bytes.
//! - `answer TEXT` begins an answer, `> LINE` adds a line to it, and `repeat COUNT TEXT` a text so many times. It is all that is
//!   written, or what it begins with behind `front`, or ends with behind `back`; behind `moves` it is the lines of a report that
//!   begin with E or M.
//! - `source PIECE CALL ..`: how many bytes a read gives, and which calls fail. `sink PIECE ROOM CALL ..`: how many a write
//!   takes, and in all, and which calls fail. `sound` goes back to streams without a fault, by pieces of one byte and of 4,096.
//! - `times COUNT`: how often the rows behind it are asked.
//! - `listing AT:DIGITS,..` is a row: the answer is the list of an image of the MSP430 with these bytes alone, which perhaps no
//!   reader takes. `at-once COUNT WORDS` is one too: the call by these words on the input has its workers work at once, as many as
//!   have a processor and at least two, behind so many claims that come one behind the other.
//! - `reads COUNT STATUS WORDS`, `writes COUNT STATUS WORDS` and `fronts FIRST LAST STATUS WORDS` are tables as rows: a source
//!   that fails at each of its calls gives ReadFault and nothing, a sink that fails at each of its calls WriteFault and the front
//!   of the answer, and each front of the input of so many bytes this status and the answer. The streams go by the pieces that
//!   `source` and `sink` say, or by single bytes.
//! - A line that begins with the name of a status is a row, as `STATUS WORDS`: the call by these words on the input answers this
//!   status and that answer.
//!
//! In a text `\n`, `\r` and `\t` are what they are in Rust.
#![tactic(auto)]

mod rows;
mod tables;
mod ways;
mod workers;

use crate::rows::Rows;
use row_parts::tell;
use std::io;

fn main(rt: HostRuntime) -> io::Result<()> {
    let mut rows = Rows::new(rt.alloc());
    tell(rt, |line| rows.take(&rt, line))
}
