//! Rows of words on standard error: the standard output says how many lines of the standard input hold, and which don't.
//!
//! `text TEXT` begins a text, and `+ TEXT` adds a line to it; `\n`, `\r` and `\t` in it are what they are in Rust. Each other line
//! is a row, as `WORD ASKED | PART`: it holds where what is said has the part, or is the rest of a part that begins with `=`. What is
//! said is `none` where nothing is.
//!
//! - `slip WORDS`: what is wrong with the words of a command line.
//! - `number DIGITS LEAST MOST` and `range TEXT`: what an option makes of its text.
//! - `usage`: the first option that the usage lacks, or whose numbers it lacks.
//! - `progress SECOND MEGABYTES TURNS NODES WAITING`: how far an analysis is, and `memory`: the megabytes that the text tells.
//! - `input TEXT` and `bytes DIGITS`: what an input is that begins so.
//! - `vain WORDS` and `overwritten WORDS`: what is seen of the text, as the report that these words ask for.
//! - `second PIECES` and `address PIECES LINE`: how many lines behind the end record aren't blank, and the address of a record,
//!   behind so many pieces of sixteen bytes of the text. `unasked WORDS`: whether the words ask for assertions that it lacks.
//!   `mirrored WORDS`: the first of its assertions that is on the mirror alone, by its line, and where the mirrored RAM begins.
//! - `asks CHIP CODE SCRIPT`: what a run asks of code at F000h of the MSP430, or at 0000h of the MCS-51, along a script.
#![tactic(auto)]

mod questions;
mod reports;
mod sources;
mod texts;
mod words;

use crate::questions::asks;
use crate::reports::{overwritten, vain};
use crate::sources::{address, mirrored, second, unasked};
use crate::texts::{binary, input, memory, progress};
use crate::words::{number, range, slip, usage};
use row_parts::{add_line, tell, text_of};
use std::alloc::{AllocError, Global};
use std::io;

/// What is said of what a row asks about a text.
fn said(alloc: Global, word: &str, asked: &str, text: &str) -> Result<String, AllocError> {
    match word {
        "slip" => slip(alloc, asked),
        "number" => number(alloc, asked),
        "range" => range(alloc, asked),
        "usage" => usage(alloc),
        "progress" => progress(alloc, asked),
        "memory" => memory(alloc, text),
        "input" => input(alloc, asked),
        "bytes" => binary(alloc, asked),
        "vain" => vain(alloc, asked, text),
        "overwritten" => overwritten(alloc, asked, text),
        "second" => second(alloc, asked, text),
        "unasked" => unasked(alloc, asked, text),
        "mirrored" => mirrored(alloc, asked, text),
        "address" => address(alloc, asked, text),
        "asks" => asks(alloc, asked),
        _ => String::from_str(alloc, "no such row"),
    }
}

/// Whether what is said has a part, or is the rest of it.
fn has(said: &str, part: &str) -> bool {
    match part.strip_prefix('=') {
        Some(whole) => said == whole,
        None => said.contains(part),
    }
}

/// Whether what is said of what a row asks has its part.
fn holds(alloc: Global, word: &str, row: &str, text: &str) -> Result<bool, AllocError> {
    let (asked, part) = row.split_once('|').unwrap_or((row, ""));
    let said = said(alloc, word, asked.trim_end(), text)?;
    Ok(has(said.as_str(), part.trim()))
}

/// Does what a line says, and tells whether it holds where it is a row.
fn take(alloc: Global, text: &mut String, line: &str) -> Result<Option<bool>, AllocError> {
    let (word, rest) = line.split_once(' ').unwrap_or((line, ""));
    match word {
        "" | "#" => Ok(None),
        "text" => {
            *text = text_of(alloc, rest)?;
            Ok(None)
        }
        "+" => add_line(text, rest).and(Ok(None)),
        _ => holds(alloc, word, rest, text.as_str()).map(Some),
    }
}

fn main(rt: HostRuntime) -> io::Result<()> {
    let alloc = rt.alloc();
    let mut text = String::new(alloc);
    tell(rt, |line| take(alloc, &mut text, line))
}
