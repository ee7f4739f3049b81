//! Rows of certificates, over a chip whose states are numbers (`specs/Countdown.antt`): the standard output says how many lines of
//! the standard input hold, and which don't.
//!
//! A row is `SAID | TEXT`: what is said of a text, wherever it is cut in two pieces. `\n` and `\r` in it are what they are in Rust.
//!
//! - `faulty LINE FAULT`: it is no certificate, and this is its first line at fault.
//! - `closed NODES`: its table is closed, and has so many nodes.
//! - `no start`, `unknown LINE NODE`, `outside LINE NODE FIELD POSTED HELD`, `open LINE ADDRESS CAUSE`: why its table isn't closed.
//!   The line is the location's that posts or is open, and 0 for the reset.
//! - `own`: it is the certificate of what the analysis finds.
//! - `long SAID | ADDRESSES`: this is said of a certificate with two nodes at each of so many addresses but for the first two,
//!   which have one.
#![tactic(auto)]

mod countdown;
mod rows;
mod texts;

use crate::rows::holds;
use row_parts::tell;
use std::io;

fn main(rt: HostRuntime) -> io::Result<()> {
    let alloc = rt.alloc();
    tell(rt, |line| Ok(Some(holds(alloc, line)?)))
}
