//! What lines ask, and whether a row holds.

use crate::images::{push_front, push_image, push_pieces};
use crate::lists::push_list;
use crate::memory_streams::{push_reads, push_writes};
use crate::numbers::{halves, word_of};
use crate::reports::{push_report, push_stack};
use crate::scripts::{push_feeds, push_script};
use crate::symbols::push_symbols;
use crate::texts::push_text;
use crate::ways::push_ways;
use image::Image;
use no_memory::Memory;
use row_parts::text_of;
use std::alloc::{AllocError, Global};

/// The last image that was read.
#[derive(Drop)]
pub struct Rows {
    image: Option<Image>,
}

impl Rows {
    pub fn new() -> Rows {
        Rows { image: None }
    }

    /// Whether a line holds.
    pub fn take(&mut self, alloc: Global, line: &str) -> Result<Option<bool>, AllocError> {
        if line.is_empty() {
            return Ok(None);
        }
        let line = text_of(alloc, line)?;
        let (row, wanted) = line.as_str().split_once(" > ").unwrap_or(("", ""));
        let (kind, asked) = halves(row);
        let mut out = String::new(alloc);
        match self.answer(alloc, &mut out, kind, asked) {
            Ok(()) => Ok(Some(out.as_str().trim_end_matches(' ') == wanted)),
            Err(Memory) => Err(AllocError),
        }
    }

    /// Adds the answer to what a row asks.
    fn answer(
        &mut self,
        alloc: Global,
        out: &mut String,
        kind: &str,
        asked: &str,
    ) -> Result<(), Memory> {
        match kind {
            "image" => push_image(alloc, out, &mut self.image, asked),
            "front" => push_front(alloc, out, &mut self.image, asked),
            "pieces" => push_pieces(alloc, out, &mut self.image, asked),
            "byte" | "meets" => Ok(push_of_image(out, self.image.as_ref(), kind, asked)?),
            _ => push_answer(alloc, out, kind, asked),
        }
    }
}

/// Adds the answer to what a row asks that isn't of an image.
fn push_answer(alloc: Global, out: &mut String, kind: &str, asked: &str) -> Result<(), Memory> {
    match kind {
        "script" => Ok(push_script(alloc, out, asked)?),
        "feeds" => Ok(push_feeds(alloc, out, asked)?),
        "report" => push_report(alloc, out, asked),
        "stack" => push_stack(alloc, out, asked),
        "symbols" | "named" => push_symbols(alloc, out, kind, asked),
        "reads" => push_reads(alloc, out, asked),
        "writes" => push_writes(alloc, out, asked),
        "made" | "size" | "parts" | "fault" | "counted" | "whole" => {
            push_text(alloc, out, kind, asked)
        }
        "each" | "ways" | "either" => push_ways(alloc, out, kind, asked),
        _ => push_list(alloc, out, kind, asked),
    }
}

/// Adds the byte at an address of an image, or whether it has a byte in a range.
fn push_of_image(
    out: &mut String,
    image: Option<&Image>,
    kind: &str,
    asked: &str,
) -> Result<(), AllocError> {
    match image {
        Some(image) if kind == "byte" => push_byte(out, image, asked),
        Some(image) => push_meeting(out, image, asked),
        None => out.push_str("no image"),
    }
}

/// Adds the byte at an address of an image.
fn push_byte(out: &mut String, image: &Image, at: &str) -> Result<(), AllocError> {
    match image.byte(word_of(at)) {
        Some(byte) => write!(out, "{byte:02X}"),
        None => out.push_str("none"),
    }
}

/// Adds whether an image has a byte in a range.
fn push_meeting(out: &mut String, image: &Image, range: &str) -> Result<(), AllocError> {
    let (lo, count) = halves(range);
    let count = u32::from_str_radix(count, 16).unwrap_or(0);
    write!(out, "{}", image.meets(word_of(lo), count))
}
