//! Made programs, and texts that are built part by part.

use crate::memory_streams::failing;
use crate::numbers::{count_of, halves, push_bytes};
use dense_text::{Text, TextBuilder};
use image_gen::{ChipName, MOST, make};
use no_memory::Memory;
use std::alloc::Global;
use vsa_io::{CleanSink, MemSink};

/// The made program of a chip and a number of functions; none of another number.
fn made(alloc: Global, asked: &str) -> Result<Vec<u8>, Memory> {
    let (chip, count) = halves(asked);
    let chip = if chip == "mcs51" {
        ChipName::Mcs51
    } else {
        ChipName::Msp430
    };
    match count.parse::<u32>() {
        Ok(count) if 1 <= count && count <= MOST => make(alloc, chip, count),
        _ => Ok(Vec::new(alloc)),
    }
}

/// Adds a made program, or how many bytes it has.
fn push_made(alloc: Global, out: &mut String, kind: &str, asked: &str) -> Result<(), Memory> {
    let bytes = made(alloc, asked)?;
    let pushed = match kind {
        "made" => push_bytes(out, bytes.as_slice()),
        _ => write!(out, "{}", bytes.len()),
    };
    Ok(pushed?)
}

/// A text that is built part by part, and the bytes of all parts.
#[derive(Drop)]
struct Built {
    builder: TextBuilder,
    bytes: Vec<u8>,
}

impl Built {
    /// No part yet.
    fn new(alloc: Global) -> Result<Built, Memory> {
        Ok(Built {
            builder: TextBuilder::new(alloc)?,
            bytes: Vec::new(alloc),
        })
    }

    /// Adds a part.
    fn push(&mut self, part: &str) -> Result<(), Memory> {
        self.builder.push_part(part.as_bytes())?;
        Ok(self.bytes.extend_from_slice(part.as_bytes())?)
    }

    /// Adds parts so many times.
    fn push_parts(&mut self, asked: &str) -> Result<(), Memory> {
        let (times, parts) = halves(asked);
        for _ in 0..count_of(times) {
            for part in parts.split('|') {
                self.push(part)?;
            }
        }
        Ok(())
    }

    /// Adds numbers as parts, some of which come again.
    fn push_numbers(&mut self, alloc: Global, count: &str) -> Result<(), Memory> {
        for number in 0..count_of(count) {
            let part = (number % 7).wrapping_mul(number) % 400;
            let part = part.to_string(alloc)?;
            self.push(part.as_str())?;
        }
        Ok(())
    }
}

/// Whether a text is written in pieces of this length as these bytes.
fn is_written(alloc: Global, text: &Text, bytes: &[u8], piece: usize) -> Result<bool, Memory> {
    let mut sink = CleanSink::with_room(alloc, piece.max(1), bytes.len())?;
    Ok(text.write_to(&mut sink).is_ok() && sink.bytes() == bytes)
}

/// Whether a text is written as these bytes, in pieces of any length.
fn is_always_written(alloc: Global, text: &Text, bytes: &[u8]) -> Result<bool, Memory> {
    for piece in [1, 4, 7, 100_000] {
        if !is_written(alloc, text, bytes, piece)? {
            return Ok(false);
        }
    }
    Ok(true)
}

/// Adds whether a text is written as these bytes, and given as them.
fn push_sameness(alloc: Global, out: &mut String, text: Text, bytes: &[u8]) -> Result<(), Memory> {
    let is_written = is_always_written(alloc, &text, bytes);
    let is_given = text.into_bytes()?.as_slice() == bytes;
    Ok(write!(out, "{}", is_written? && is_given)?)
}

/// Adds this of a text of parts, or of numbers as parts.
fn push_built(alloc: Global, out: &mut String, kind: &str, asked: &str) -> Result<(), Memory> {
    let mut built = Built::new(alloc)?;
    let pushed = match kind {
        "parts" => built.push_parts(asked),
        _ => built.push_numbers(alloc, asked),
    };
    let Built { builder, bytes } = built;
    let text = builder.into_text();
    match pushed {
        Ok(()) => push_sameness(alloc, out, text, &bytes),
        Err(Memory) => {
            drop(text);
            Err(Memory)
        }
    }
}

/// Adds this of a text of bytes.
fn push_whole(alloc: Global, out: &mut String, asked: &str) -> Result<(), Memory> {
    let bytes = Vec::from_slice(alloc, asked.as_bytes())?;
    push_sameness(alloc, out, Text::from_bytes(bytes), asked.as_bytes())
}

/// Whether less than all of a text is written where a write fails, and a front of it.
fn is_front(alloc: Global, text: &Text, bytes: &[u8], call: &str) -> Result<bool, Memory> {
    let mut sink = MemSink::with_room(alloc, 10_000, bytes.len(), failing(alloc, call)?)?;
    Ok(
        text.write_to(&mut sink).is_err()
            && bytes.starts_with(sink.bytes())
            && sink.bytes().len() < bytes.len(),
    )
}

/// Adds how a text of parts is written where a write fails.
fn push_fault(alloc: Global, out: &mut String, asked: &str) -> Result<(), Memory> {
    let (call, asked) = halves(asked);
    let mut built = Built::new(alloc)?;
    let pushed = built.push_parts(asked);
    let Built { builder, bytes } = built;
    let text = builder.into_text();
    let is_front = is_front(alloc, &text, &bytes, call);
    drop((text, bytes));
    pushed?;
    Ok(out.push_str(if is_front? { "a front" } else { "no front" })?)
}

/// Adds the answer to what a row asks of a text.
pub fn push_text(alloc: Global, out: &mut String, kind: &str, asked: &str) -> Result<(), Memory> {
    match kind {
        "made" | "size" => push_made(alloc, out, kind, asked),
        "parts" | "counted" => push_built(alloc, out, kind, asked),
        "fault" => push_fault(alloc, out, asked),
        _ => push_whole(alloc, out, asked),
    }
}
