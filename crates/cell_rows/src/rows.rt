//! What lines say, and whether they hold.

use crate::calls::Walk;
use crate::cells::Call;
use crate::operations::is_made;
use crate::ranges::{Fourth, add, holds};
use crate::values::{Value, number_of, numbers_of, put_of, puts_of, value_of};
use arrayvec::ArrayVec;
use irq_frames::Ranges;
use no_memory::Memory;
use std::alloc::{AllocError, Global};
use std::mem::replace;

/// What the lines so far have made.
#[derive(Drop)]
pub struct Rows {
    walk: Walk,
    marks: ArrayVec<u16, 16>,
    touched: Ranges,
    others: Ranges,
}

fn call_of(word: &str) -> Option<Call> {
    match word {
        "write" => Some(Call::Write),
        "any" => Some(Call::WriteAny),
        "join" => Some(Call::Join),
        "widen" => Some(Call::Widen),
        "others" => Some(Call::Others),
        "exit" => Some(Call::Exit),
        _ => None,
    }
}

impl Rows {
    /// A RAM of no cells, no marks and no ranges.
    pub fn new(alloc: Global) -> Result<Rows, Memory> {
        Ok(Rows {
            walk: Walk::new(alloc, 0, 0, 0)?,
            marks: ArrayVec::new(),
            touched: Ranges::new(alloc),
            others: Ranges::new(alloc),
        })
    }

    /// Does what a line says, and tells whether it holds where it is a row. One of another form doesn't.
    pub fn take(&mut self, alloc: Global, line: &str) -> Result<Option<bool>, AllocError> {
        let (word, rest) = line.split_once(' ').unwrap_or((line, ""));
        let held = match call_of(word) {
            Some(call) => self.call(alloc, call, rest).map(Some),
            None => self.answer(alloc, word, rest),
        };
        held.or(Err(AllocError))
    }

    fn answer(&mut self, alloc: Global, word: &str, rest: &str) -> Result<Option<bool>, Memory> {
        match word {
            "read" | "next" | "within" | "marked" | "unrelated" => {
                self.has_cells(alloc, word, rest).map(Some)
            }
            "touched" | "united" | "covers" | "has" => {
                holds(alloc, &self.touched, &self.others, word, rest).map(Some)
            }
            "and" | "or" | "joined" | "widened" | "inside" | "resumed" => {
                let made = is_made(word, rest, self.marks.as_slice());
                Ok(Some(made == Some(true)))
            }
            _ => {
                let has_begun = self.begin(alloc, word, rest)?;
                Ok(if has_begun { None } else { Some(false) })
            }
        }
    }

    fn call(&mut self, alloc: Global, call: Call, text: &str) -> Result<bool, Memory> {
        match puts_of(alloc, text)? {
            Some(puts) => self
                .walk
                .call(alloc, call, puts.as_slice(), self.marks.as_slice()),
            None => Ok(false),
        }
    }

    /// Does what a line says that is no row, and tells whether it says anything.
    fn begin(&mut self, alloc: Global, word: &str, rest: &str) -> Result<bool, Memory> {
        match word {
            "ram" => self.begin_ram(alloc, rest),
            "marks" => {
                self.marks = numbers_of(rest).unwrap_or(ArrayVec::new());
                Ok(!self.marks.is_empty())
            }
            "untouched" => {
                self.touched = Ranges::new(alloc);
                self.others = Ranges::new(alloc);
                Ok(true)
            }
            "touch" => add(&mut self.touched, rest),
            "other" => add(&mut self.others, rest),
            "resume" => self.resume(alloc, rest),
            _ => Ok(false),
        }
    }

    fn begin_ram(&mut self, alloc: Global, rest: &str) -> Result<bool, Memory> {
        let numbers = numbers_of(rest).unwrap_or(ArrayVec::new());
        match numbers.as_slice() {
            [low, high, mark] if *low <= *high => {
                let walk = Walk::new(alloc, *low, *high, *mark)?;
                drop(replace(&mut self.walk, walk));
                Ok(true)
            }
            _ => Ok(false),
        }
    }

    fn resume(&mut self, alloc: Global, rest: &str) -> Result<bool, Memory> {
        match value_of(rest) {
            Some(Value::Word(held)) => {
                self.walk.resume(alloc, &Fourth { held }, &self.touched)?;
                Ok(true)
            }
            _ => Ok(false),
        }
    }

    fn is_next(&self, from: &str, cell: &str) -> bool {
        match (number_of(from), put_of(cell)) {
            (Some(from), Some(put)) => self.walk.is_next(from, Some(&put)),
            (Some(from), None) => cell == "none" && self.walk.is_next(from, None),
            (None, _) => false,
        }
    }

    /// Whether a row of cells holds.
    fn has_cells(&self, alloc: Global, word: &str, rest: &str) -> Result<bool, Memory> {
        let (first, behind) = rest.split_once(' ').unwrap_or((rest, ""));
        match word {
            "within" => {
                let (other, answer) = behind.split_once(' ').unwrap_or((behind, ""));
                Ok(self.walk.is_within(first, other, answer == "yes"))
            }
            "marked" => {
                let count = number_of(first).unwrap_or(u16::MAX);
                Ok(self.walk.marked() > u32::from(count))
            }
            "next" => Ok(self.is_next(first, behind)),
            _ => self.has_values(alloc, word == "read", rest),
        }
    }

    /// Whether values are read, or are once relations are left out.
    fn has_values(&self, alloc: Global, related: bool, text: &str) -> Result<bool, Memory> {
        match puts_of(alloc, text)? {
            Some(puts) if related => Ok(self.walk.are_read(&puts)),
            Some(puts) => self.walk.are_unrelated(alloc, &puts),
            None => Ok(false),
        }
    }
}
