//! What the bytes of a memory are used for.

use crate::depth::Depths;
use hex_digits::{byte, word};
use image::Image;
use no_memory::Memory;
use report_lines::{Form, Set, Space};
use std::alloc::Global;

/// What a byte is used for. Later ones go before earlier ones where a byte has several uses.
#[derive(Clone, Copy, PartialEq, Eq)]
pub enum Use {
    None,
    /// The image has it, and nothing reaches it.
    Unreached,
    /// It is read or written, and isn't in the image.
    Accessed,
    /// It is of the stack.
    Stack,
    /// The image has it, and it is read.
    Data,
    /// It is a byte of an instruction that can run.
    Code,
}

impl Use {
    /// The words of a use.
    pub fn words(self) -> &'static str {
        match self {
            Use::None => "not used",
            Use::Unreached => "in the image, and not reached",
            Use::Accessed => "read or written",
            Use::Stack => "stack",
            Use::Data => "read from the image",
            Use::Code => "code that can run",
        }
    }
}

/// All uses that a picture shows.
pub const USES: [Use; 5] = [
    Use::Code,
    Use::Data,
    Use::Unreached,
    Use::Accessed,
    Use::Stack,
];

/// A memory, byte by byte.
#[derive(Drop)]
pub struct Map {
    pub space: Space,
    pub cells: Vec<Use>,
    /// How many accesses may be at every address. They aren't in the cells.
    pub unbounded: usize,
}

/// A part of a memory: some bytes, one behind the other.
#[derive(Clone, Copy, PartialEq, Eq)]
pub struct Part {
    pub from: usize,
    /// Behind its last byte.
    pub to: usize,
    pub what: Use,
}

impl Map {
    /// A memory of so many bytes, none of which is used.
    pub(crate) fn new(alloc: Global, space: Space, size: usize) -> Result<Map, Memory> {
        let mut cells = Vec::new(alloc);
        for _ in 0..size {
            cells.push(Use::None)?;
        }
        Ok(Map {
            space,
            cells,
            unbounded: 0,
        })
    }

    /// Marks so many bytes from an address on, but for those that are marked by what goes before it.
    pub(crate) fn mark(&mut self, from: u16, count: u16, what: Use) {
        for k in 0..count {
            let at = usize::from(from.wrapping_add(k));
            if at < self.cells.len() {
                let old = self.cells[at];
                self.cells[at] = marked(old, what);
            }
        }
    }

    /// Marks the bytes of the image.
    pub(crate) fn mark_image(&mut self, image: &Image) {
        for at in 0..0xFFFFu16 {
            if image.byte(at).is_some() {
                self.mark(at, 1, Use::Unreached);
            }
        }
        if image.byte(0xFFFF).is_some() {
            self.mark(0xFFFF, 1, Use::Unreached);
        }
    }

    /// Marks what an access may reach.
    pub(crate) fn mark_set(&mut self, set: &Set<'_>, count: u16) {
        match set.form {
            Form::Every => self.unbounded = self.unbounded.saturating_add(1),
            Form::List => {
                for part in set.text.split(|byte| *byte == b',') {
                    if let Some(at) = byte(part).or(word(part)) {
                        self.mark(at, count, Use::Accessed);
                    }
                }
            }
            Form::Run {
                count: 0x8000..,
                ..
            } => {
                self.unbounded = self.unbounded.saturating_add(1);
            }
            Form::Run {
                base,
                stride,
                count: many,
            } => {
                let mut at = base;
                for _ in 0..many {
                    self.mark(at, count, Use::Accessed);
                    at = at.wrapping_add(stride);
                }
            }
        }
    }

    /// Marks the stack, where its depth is known.
    pub(crate) fn mark_stack(&mut self, depths: Option<Depths>) {
        let Some(depths) = depths else {
            return;
        };
        if depths.grows_up {
            self.mark(depths.top.wrapping_add(1), depths.most(), Use::Stack);
        } else {
            self.mark(depths.extreme, depths.most(), Use::Stack);
        }
    }

    /// How many bytes have a use.
    pub fn count(&self, what: Use) -> usize {
        let mut count = 0usize;
        for cell in self.cells.iter() {
            if *cell == what {
                count = count.saturating_add(1);
            }
        }
        count
    }

    /// The parts that have a use, from the lowest on.
    pub fn parts(&self, alloc: Global) -> Result<Vec<Part>, Memory> {
        let mut parts = Vec::new(alloc);
        let mut from = 0usize;
        for at in 0..self.cells.len() {
            let ends = at + 1 == self.cells.len() || self.cells[at + 1] != self.cells[at];
            if ends {
                if self.cells[at] != Use::None {
                    parts.push(Part {
                        from,
                        to: at + 1,
                        what: self.cells[at],
                    })?;
                }
                from = at + 1;
            }
        }
        Ok(parts)
    }
}

/// The use of a byte that had one and gets another one.
fn marked(old: Use, new: Use) -> Use {
    match (old, new) {
        (Use::None, new) => new,
        (Use::Unreached | Use::Data, Use::Accessed | Use::Data | Use::Stack) => Use::Data,
        (_, Use::Code) => Use::Code,
        (Use::Accessed, Use::Stack) => Use::Stack,
        (old, _) => old,
    }
}
