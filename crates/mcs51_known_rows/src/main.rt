//! Rows of what is known behind instructions of the MCS-51, worked out by hand from Intel's MCS-51 Programmer's Guide and
//! Instruction Set: a line of the standard input is a row, and the standard output says how many hold and which don't.
//!
//! A row has an address and the code from there on, and what is known in front of the instruction beside the state behind a
//! reset; behind `>` its accesses, where it goes on (`PC`), and what is known there that was not in front of it. So a row
//! says all that an instruction changes.
//!
//! - A value is a set as a report prints it. Behind `@` stands what it came from in the state that an interrupt suspended:
//!   a place, and the masks of an AND and an OR. A name of digits is a byte of RAM.
//! - A bit of PSW is 0, 1 or `*`. `PSW` is all of them, by a number.
//! - `levels` are those that may be in service: 0 is none, L the low one, H the high one, and LH both.
//! - `linear=30*3+0A`: A is three times the byte 30h and 0Ah. `carry=A<04`: CY says whether A is below 4. `-` is no fact.
//! - `touched` is the range of RAM that a handler may have written.
//! - `frame=30`: an interrupt that came where SP was 30h, and `*` where it could be several. Else there is none.
//! - An access is `i` for internal RAM, `s` a special function register, `x` external RAM or `c` code, `r` for a read or `w`
//!   for a write, and its addresses.
//! - `PC=back`: to the state that the interrupt suspended. `never`: a way of a jump that can't be taken.
//!
//! Other rows begin with a word in place of an address:
//!
//! - `join` has two states with `+` between them, and behind `>` what is known of both that isn't what the first one says.
//!   Nothing stands there just where the second one says all that the first one does. `widen` is the same, up to the marks
//!   0, 1 and 5.
//! - `top` has what is known of every state.
//! - `comings` has the interrupts that may come in a state, each by its source, its level and SP: `3H=07`. `enter` has the
//!   address where such a one comes, and what its handler knows that the state in front of it doesn't say.
//! - `resume` has the address where an interrupt came where SP was 7, what was known there, and behind `+` what the exit of
//!   its handler knows; behind `>` what is known where the suspended state goes on that wasn't known in it.
//!
//! - `front` has sentences of a text of promises, with `;` between them, and behind `|` an instruction and what is known; behind
//!   `>` what is known in front of the instruction that isn't known anyway.
//!
//! A line of `#` says what the next ones show.
#![tactic(auto)]

mod facts;
mod fronts;
mod instructions;
mod interrupts;
mod naming;
mod pairs;
mod sets;
mod showing;
mod states;

use crate::fronts::is_front;
use crate::instructions::runs;
use crate::interrupts::{come, enters};
use crate::pairs::{grows, resumes};
use crate::states::is_top;
use no_memory::Memory;
use row_parts::tell;
use std::alloc::{AllocError, Global};
use std::io;

/// Whether a line holds. One of another form doesn't.
fn holds(alloc: Global, line: &str) -> Result<bool, Memory> {
    let (front, after) = line.split_once('>').unwrap_or(("", ""));
    let (form, words) = front.split_once(' ').unwrap_or(("", ""));
    match form {
        "join" | "widen" => grows(alloc, form, words, after),
        "top" => is_top(alloc, words, after),
        "comings" => come(alloc, words, after),
        "enter" => enters(alloc, words, after),
        "front" => is_front(alloc, words, after),
        "resume" => resumes(alloc, words, after),
        _ => runs(alloc, line),
    }
}

fn main(rt: HostRuntime) -> io::Result<()> {
    let alloc = rt.alloc();
    tell(rt, |line| match holds(alloc, line) {
        Ok(held) => Ok(Some(held)),
        Err(Memory) => Err(AllocError),
    })
}
