//! How many lines of each letter a report has.

use report_lines::{Line, Report};

/// How many lines there are of each letter.
#[derive(Clone, Copy)]
pub struct Counts {
    pub edges: usize,
    pub instrs: usize,
    pub accesses: usize,
    pub opens: usize,
    pub stacks: usize,
}

impl Counts {
    /// The counts of a report.
    pub fn of(report: &Report<'_>) -> Counts {
        let mut counts = Counts {
            edges: 0,
            instrs: 0,
            accesses: 0,
            opens: 0,
            stacks: 0,
        };
        for line in report.lines.iter() {
            let count = match line {
                Line::Edge(_) => &mut counts.edges,
                Line::Instr(_) => &mut counts.instrs,
                Line::Access(_) => &mut counts.accesses,
                Line::Open(_) => &mut counts.opens,
                Line::Stack(_) => &mut counts.stacks,
            };
            *count = count.saturating_add(1);
        }
        counts
    }
}
