//! Rows of words, of cells of RAM, and of what an interrupt leaves of them, worked by hand: the standard output says how many lines
//! of the standard input hold, and which don't.
//!
//! A value is a set as a report prints it (`12,34`, `00/10/10` by base, stride and count, or `*`), and behind `@` where it came from
//! in the state that an interrupt suspended: a place, and the masks of an AND and an OR, as `0200&0FF0|0003`. A cell is `w` or `b`,
//! for a word or a byte, its address, and its value: `w0200=1234`. The value `(0200)` is what is read at that address.
//!
//! Calls on cells, as a list and as pages. Such a line holds where both then have the same cells, are within the cells in front of
//! the call alike, and hold of a plain RAM, into which each value is written at its first address.
//!
//! - `ram LOW,HIGH,MARKED`: no cells, of a RAM of these addresses. The calls from here on that leave a cell at the marked address or
//!   above are counted.
//! - `write CELL ..`: each at its address. `any CELL ..`: each at one of its addresses, with commas between them.
//! - `join CELL ..`, `widen CELL ..`: with cells that got these writes, which are the others from then on. `others CELL ..`: the
//!   others alone are such cells.
//!
//! Rows of cells:
//!
//! - `read CELL ..`: what is read there. `unrelated CELL ..`: the same, once relations are left out.
//! - `next ADDRESS CELL`: the cell with the least place from there on, or `none`.
//! - `within A B ANSWER`: whether `these` cells, those `before` the last call or the `others` are within one another.
//! - `marked COUNT`: more calls than this left a cell at the marked address or above.
//!
//! Rows of values, which begin with `w` or `b`:
//!
//! - `and VALUE MASK RESULT`, `or VALUE MASK RESULT`, `joined A B RESULT`, `widened A B RESULT`, up to the `marks` of a line above.
//! - `inside A B ANSWER`: whether A is within B, and B within A.
//! - `resumed HELD EXIT RESULT`: what a word of the exit goes on as, where its place held the first one.
//!
//! Rows of ranges, each a low and a high address:
//!
//! - `touch RANGE`: adds a range, and `other RANGE` to other ranges; `untouched`: there are none.
//! - `touched RANGE ..`: the ranges. `united RANGE ..`: with the other ones. `has ADDRESS ANSWER`. `covers ANSWER`: whether these are
//!   within the others.
//! - `exit CELL ..`: the others are such cells alone. `resume VALUE`: these cells are what goes on, where the others are the exit's,
//!   the place 4 held the value, and nothing is known of other places.
#![tactic(auto)]

mod calls;
mod cells;
mod operations;
mod plain;
mod ranges;
mod rows;
mod values;

use crate::rows::Rows;
use row_parts::tell;
use std::io;

fn main(rt: HostRuntime) -> io::Result<()> {
    let alloc = rt.alloc();
    match Rows::new(alloc) {
        Ok(mut rows) => {
            let told = tell(rt, |line| rows.take(alloc, line));
            drop(rows);
            told
        }
        Err(_) => Err(io::Error::from(io::ErrorKind::OutOfMemory)),
    }
}
