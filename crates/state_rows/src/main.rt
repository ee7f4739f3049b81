//! Rows of states of both chips as texts, and of their parts: the standard output says how many lines of the standard input
//! hold, and which don't.
//!
//! A row has what is read, and a text. It holds where the text is read, and what was read is written as it stands there, or as
//! it stands behind ` > `. Behind `no` it holds where the text is refused.
//!
//! - `at CHIP NODE`: the states of the rows behind it are of this chip, at this node. RAM of the MSP430 goes from 0200h to
//!   09FFh.
//! - `first STATE`: the state that `field` changes.
//! - `state STATE`: a state. `field NAME=VALUE`: the first one with this field.
//! - `outside NAME NEW HELD`: the field that is told of the first state with this value, which isn't within that with the other.
//! - `location NODE` and `exit NODE`: nodes, of which stack pointers have four digits and two.
//! - `word SET`, `plain SET`, `bytes SET`: words in an interrupt's frame and in none, and bytes; `even SET` and `odd SET`: words
//!   that are all even, and that aren't. `ranges`, `cells`, `bits`: ranges and cells of RAM from 0200h to 03FFh, and three bits.
//!   Places are `PC`, `SR` and `R4`.
//! - `number DIGITS TEXT` and `short DIGITS TEXT`: a number of so many digits, or of so many at most, in decimal digits.
//!   `digits NUMBER`: its four digits. `name TEXT` and `named NUMBER`: a name's number, and a number's name.
//! - `behind FRONT TEXT`, `cut BYTE TEXT`, `has BYTE TEXT`: parts of a text.
//!
//! In a text `\n`, `\r` and `\t` are what they are in Rust.
#![tactic(auto)]

mod parts;
mod rows;
mod states;
mod values;

use crate::rows::Rows;
use row_parts::tell;
use std::io;

fn main(rt: HostRuntime) -> io::Result<()> {
    let alloc = rt.alloc();
    let mut rows = Rows::new(alloc);
    tell(rt, |line| rows.take(alloc, line))
}
