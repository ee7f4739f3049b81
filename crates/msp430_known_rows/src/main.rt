//! Rows of what is known behind instructions of the MSP430, worked out by hand from SLAU049, MSP430x1xx Family User's Guide,
//! chapter 3.
//!
//! A row has an address and the code from there on, and what is known in front of the instruction beside the state behind a
//! reset; behind `>` its accesses, where it goes on (`PC`), and what is known there that was not in front of it; and behind
//! `;` the instruction, as a disassembly has it. So a row says all that an instruction changes.
//!
//! - A value is a set as a report prints it. Behind `@` stands what it came from in the state that an interrupt suspended:
//!   a place, and the masks of an AND and an OR. A name of four digits is a word of RAM, and with `b` in front a byte.
//! - A bit of SR is 0, 1 or `*`. `SR` is all nine of them, from V down to C.
//! - `late`: whether an interrupt may still come behind an instruction that cleared GIE, a bit too.
//! - `fact=R5+0004:0004`: the flags are those of comparing R5 and 0004h with 0004h. Of two digits it is a comparison of
//!   bytes, and `-` is no fact.
//! - `touched` is the range of RAM that a handler may have written.
//! - `frame=0280`: an interrupt that came where SP was 0280h, and `*` where that could be several numbers. Else there is none.
//! - RAM stands from 0200h to 02FFh, and behind `mirror=0200-09FF` from 1100h to 38FFh, with its first bytes there again.
//! - `write=0000-SP` promises these windows of the row's instruction, and `all=0000-SP` of each store, as `write *` does.
//! - An access is `r` for a read or `w` for a write, `b` behind it where it is of a byte, and its addresses.
//! - `PC=back`: to the state that the interrupt suspended. `never`: a way of a jump that can't be taken.
//! - `Targets` and `Store` are what is left open, as in a report.
//!
//! A line of `#` says what the next ones show.
#![tactic(auto)]

mod chips;
mod facts;
mod holding;
mod naming;
mod promised;
mod sets;
mod showing;

use crate::holding::holds;
use no_memory::Memory;
use row_parts::tell;
use std::alloc::AllocError;
use std::io;

fn main(rt: HostRuntime) -> io::Result<()> {
    let alloc = rt.alloc();
    tell(rt, |line| match holds(alloc, line) {
        Ok(held) => Ok(Some(held)),
        Err(Memory) => Err(AllocError),
    })
}
