//! Rows of promises: the standard output says how many lines of the standard input hold, and which don't.
//!
//! - `down TEXT > ANSWER` and `up TEXT > ANSWER`: the promises of a text over a small image whose stack grows so, each with its
//!   line and behind `|` what stands behind `END`; or the first faulty line. What is printed of the promises is read again.
//! - `step down TEXT | ITEMS > ANSWER` and `step up ..`: whether a step keeps the promises of a text, which needs no `END`, or
//!   the line of the one that it breaks. An item is `sp NUMBER`, `instr PC`, `edge TO` or an access of so many bytes, as
//!   `w2 SPACE AT`; of an address two digits are a byte and four a word.
//! - `targets COUNT > ANSWER`, `sites COUNT > ANSWER`, `lines COUNT > ANSWER`: how many promises are read of one line with so
//!   many targets, of one with so many sites, or of so many lines with a site each.
//!
//! In a text `\n`, `\r` and `\t` are what they are in Rust.
#![tactic(auto)]

mod small;
mod steps;
mod texts;

use crate::small::SmallImage;
use crate::steps::step_in;
use crate::texts::{addresses, count_in, read_in};
use promises::Growth;
use row_parts::{tell, text_of};
use std::alloc::{AllocError, Global};
use std::io;

const DOWN: SmallImage = SmallImage {
    growth: Growth::Down,
};

const UP: SmallImage = SmallImage { growth: Growth::Up };

/// What is said of a step.
fn step_said(alloc: Global, asked: &str) -> Result<String, AllocError> {
    let (chip, rest) = asked.split_once(' ').unwrap_or((asked, ""));
    let image = if chip == "up" { UP } else { DOWN };
    step_in(alloc, image, rest)
}

/// What is said of a text of many promises.
fn many_said(alloc: Global, kind: &str, count: &str) -> Result<String, AllocError> {
    let count = count.parse::<u16>().unwrap_or(0);
    let between = if kind == "lines" {
        " 0000-SP\nwrite "
    } else {
        ","
    };
    let list = addresses(alloc, count, between)?;
    let list = list.as_str();
    let text = if kind == "targets" {
        format!(in alloc; "targets F012 {list}\nEND")?
    } else {
        format!(in alloc; "write {list} 0000-SP\nEND")?
    };
    count_in(alloc, DOWN, text.as_str())
}

/// What is said of what a row asks.
fn said(alloc: Global, kind: &str, asked: &str) -> Result<String, AllocError> {
    match kind {
        "down" => read_in(alloc, DOWN, asked),
        "up" => read_in(alloc, UP, asked),
        "step" => step_said(alloc, asked),
        _ => many_said(alloc, kind, asked),
    }
}

/// Whether a line holds, where it is a row.
fn take(alloc: Global, line: &str) -> Result<Option<bool>, AllocError> {
    let line = text_of(alloc, line)?;
    let (kind, rest) = line.as_str().split_once(' ').unwrap_or(("", ""));
    if kind.is_empty() {
        return Ok(None);
    }
    let (asked, wanted) = rest.split_once(" > ").unwrap_or((rest, ""));
    let said = said(alloc, kind, asked)?;
    Ok(Some(said.as_str() == wanted))
}

fn main(rt: HostRuntime) -> io::Result<()> {
    let alloc = rt.alloc();
    tell(rt, |line| take(alloc, line))
}
