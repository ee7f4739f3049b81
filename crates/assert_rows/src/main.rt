//! Rows of assertions: the standard output says how many lines of the standard input hold, and which don't.
//!
//! - `text TEXT > ANSWER`: how many assertions stand in a text over the spaces `sfr` and `xram`, or the first line that is
//!   refused. `list TEXT > ANSWER`: the assertions, with their lines.
//! - `third LINE > ANSWER`: the same of a text with this third line, and `many COUNT LINE|REST > ANSWER` of a text with so many
//!   such lines in front of a rest.
//! - `breaks ASSERTION | ITEM` and `keeps ASSERTION | ITEM`: whether an item breaks an assertion. An item is `instr PC`, `sp SET`
//!   or an access of so many bytes, as `w2 SPACE SET`. A set is a word, `BASE/STRIDE/COUNT`, or behind `b` a byte or `*`.
//!
//! In a text `\n`, `\r` and `\t` are what they are in Rust.
#![tactic(auto)]

mod items;
mod texts;

use crate::items::is_broken;
use crate::texts::{list_in, many, read_in, third};
use row_parts::{tell, text_of};
use std::alloc::{AllocError, Global};
use std::io;

/// What is said of what a row asks about a text.
fn said(alloc: Global, kind: &str, asked: &str) -> Result<String, AllocError> {
    match kind {
        "text" => read_in(alloc, asked),
        "list" => list_in(alloc, asked),
        "third" => third(alloc, asked),
        _ => many(alloc, asked),
    }
}

/// Whether a line holds, where it is a row.
fn take(alloc: Global, line: &str) -> Result<Option<bool>, AllocError> {
    let line = text_of(alloc, line)?;
    let (kind, rest) = line.as_str().split_once(' ').unwrap_or(("", ""));
    match kind {
        "" => Ok(None),
        "breaks" => Ok(Some(is_broken(rest) == Some(true))),
        "keeps" => Ok(Some(is_broken(rest) == Some(false))),
        _ => {
            let (asked, wanted) = rest.split_once(" > ").unwrap_or((rest, ""));
            let said = said(alloc, kind, asked)?;
            Ok(Some(said.as_str() == wanted))
        }
    }
}

fn main(rt: HostRuntime) -> io::Result<()> {
    let alloc = rt.alloc();
    tell(rt, |line| take(alloc, line))
}
