//! Rows of steps of the MCS-51, worked out by hand from Intel's MCS-51 Programmer's Guide and Instruction Set: a line of
//! the standard input is a row, and the standard output says how many hold and which don't.
//!
//! A row has an address and the code from there on, how many steps are done, what stands in registers and in bytes of RAM
//! before them, and the choices (`?`); behind `>` what stands there afterwards, and the accesses of the last step, or why
//! the next step isn't done: `i` is internal RAM, `s` a special function register, `x` external RAM and `c` code, `r` a
//! read and `w` a write. L and H are the levels in service. A line of `#` says what the next ones show.
#![tactic(auto)]

mod ends;
mod holding;
mod names;
mod numbers;

use crate::holding::holds;
use row_parts::tell;
use std::io;

fn main(rt: HostRuntime) -> io::Result<()> {
    let alloc = rt.alloc();
    tell(rt, |line| Ok(Some(holds(alloc, line)?)))
}
