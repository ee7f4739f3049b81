//! What looks at a report, line by line.

use crate::mcs51::Mcs51Seen;
use crate::msp430::Msp430Seen;
use arrayvec::ArrayVec;
use report_lines::Line;

/// How long the lines are that are looked at. Longer ones have sets, and say nothing here.
const ROOM: usize = 120;

/// A place of RAM that an instruction names.
#[derive(Clone, Copy)]
pub struct Variable {
    pub at: u16,
    /// The instruction.
    pub pc: u16,
}

/// What is seen of a report, by its chip.
#[derive(Drop)]
pub enum Seen {
    Msp430(Msp430Seen),
    Mcs51(Mcs51Seen),
}

impl Seen {
    /// Notes a line.
    fn note(&mut self, line: &Line<'_>) {
        match self {
            Seen::Msp430(seen) => seen.note(line),
            Seen::Mcs51(seen) => seen.note(line),
        }
    }
}

/// What looks at a report, line by line.
#[derive(Drop)]
pub struct Watch {
    /// The line that has begun, and whether it is longer than what is kept of it.
    line: ArrayVec<u8, ROOM>,
    is_cut: bool,
    seen: Seen,
}

impl Watch {
    /// Nothing is seen yet but this.
    pub fn new(seen: Seen) -> Watch {
        Watch {
            line: ArrayVec::new(),
            is_cut: false,
            seen,
        }
    }

    /// Looks at further bytes.
    pub fn look(&mut self, bytes: &[u8]) {
        for byte in bytes {
            if *byte == b'\n' {
                self.end_line();
            } else if self.line.try_push(*byte).is_err() {
                self.is_cut = true;
            }
        }
    }

    /// Looks at the line that has ended.
    fn end_line(&mut self) {
        let line = self.line.take();
        if !self.is_cut
            && let Ok(line) = Line::read(line.as_slice())
        {
            self.seen.note(&line);
        }
        self.is_cut = false;
    }

    /// What is seen.
    pub fn seen(&self) -> &Seen {
        &self.seen
    }
}
