//! Ranges that a handler may have touched, and what the places of the suspended state held.

use crate::values::number_of;
use entry_value::Word;
use irq_frames::{Places, Ranges};
use no_memory::Memory;
use std::alloc::Global;
use value_set::Vs16;

/// Place 4 held a word, and of the others nothing is known.
#[derive(Drop)]
pub struct Fourth {
    pub held: Word,
}

impl Places for Fourth {
    ghost use Rattle.std.specs.Prelude.{◌==◌, if◌then◌else◌};
    ghost use Rattle.entry_value.specs.Cells.{unknown};

    ghost words = { λ fourth place. if place == 4 then fourth.held else unknown 2 };

    fn word(&self, place: u16) -> Word {
        if place == 4 {
            self.held
        } else {
            Word {
                set: Vs16::any(),
                entry: None,
            }
        }
    }
}

/// A low and a high address.
fn range_of(text: &str) -> Option<(u16, u16)> {
    let (low, high) = text.split_once('-')?;
    Some((number_of(low)?, number_of(high)?))
}

/// Adds a range, if the text is one.
pub fn add(ranges: &mut Ranges, text: &str) -> Result<bool, Memory> {
    match range_of(text) {
        Some((low, high)) if low <= high => {
            ranges.add(low, high)?;
            Ok(true)
        }
        _ => Ok(false),
    }
}

/// Whether ranges are those of a text.
fn are_ranges(alloc: Global, ranges: &Ranges, text: &str) -> Result<bool, Memory> {
    let mut wanted = Vec::new(alloc);
    for word in text.split(' ') {
        match range_of(word) {
            Some(range) => wanted.push(range)?,
            None => return Ok(false),
        }
    }
    Ok(ranges.list() == wanted.as_slice())
}

/// Whether two of them together are those of a text, and both are within these.
fn are_united(alloc: Global, ranges: &Ranges, others: &Ranges, text: &str) -> Result<bool, Memory> {
    let both = ranges.united(alloc, others)?;
    let within = ranges.within(&both) && others.within(&both);
    Ok(are_ranges(alloc, &both, text)? && within)
}

/// Whether a row holds of ranges and of other ones.
pub fn holds(
    alloc: Global,
    ranges: &Ranges,
    others: &Ranges,
    word: &str,
    rest: &str,
) -> Result<bool, Memory> {
    match word {
        "touched" => are_ranges(alloc, ranges, rest),
        "united" => are_united(alloc, ranges, others, rest),
        "covers" => Ok(ranges.within(others) == (rest == "yes")),
        _ => {
            let (at, answer) = rest.split_once(' ').unwrap_or((rest, ""));
            Ok(match number_of(at) {
                Some(at) => ranges.has(at) == (answer == "yes"),
                None => false,
            })
        }
    }
}
