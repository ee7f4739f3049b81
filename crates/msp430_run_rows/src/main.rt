//! Rows of steps of the MSP430, worked out by hand: a line of the standard input is a row, and the standard output says
//! how many hold and which don't.
//!
//! A row has the number of steps, the bytes of the image, the choices, and what the steps lead to, then the
//! instructions. The bytes stand from F000h on, or from the address in front of them, and F000h is the reset vector. What
//! the steps lead to are registers and bytes of RAM, or what the last step did, all choices being used, or else why the
//! next step isn't done. A line of `#` says what the next ones show.
#![tactic(auto)]

mod doing;
mod holding;
mod placing;
mod refusing;

use crate::holding::holds;
use row_parts::tell;
use std::io;

fn main(rt: HostRuntime) -> io::Result<()> {
    let alloc = rt.alloc();
    tell(rt, |line| Ok(Some(holds(alloc, line)?)))
}
