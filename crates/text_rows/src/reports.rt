//! Reports that are read, and reports that are refused.

use no_memory::Memory;
use report_lines::{Line, ReadError, Report, read};
use std::alloc::{AllocError, Global};

/// Adds how many lines a report has, and its summary.
fn push_lines(out: &mut String, report: &Report<'_>) -> Result<(), AllocError> {
    let verdict = if report.closed { "closed" } else { "open" };
    let (count, whole) = (report.lines.len(), report.summary.whole);
    match report.summary.extreme {
        Some(extreme) => write!(out, "{verdict} {count}, {extreme:04X} {whole}"),
        None => write!(out, "{verdict} {count}, none {whole}"),
    }
}

/// Adds what stands in a report, or what is wrong with its first bad line.
pub fn push_report(alloc: Global, out: &mut String, text: &str) -> Result<(), Memory> {
    match read(alloc, text.as_bytes()) {
        Ok(report) => {
            let pushed = push_lines(out, &report);
            drop(report);
            Ok(pushed?)
        }
        Err(ReadError::Refused(refusal)) => {
            Ok(write!(out, "line {}: {:?}", refusal.line, refusal.why)?)
        }
        Err(ReadError::Memory) => Err(Memory),
    }
}

/// Adds the least and the greatest number of the set in each S line.
fn push_sets(out: &mut String, lines: &[Line<'_>]) -> Result<(), AllocError> {
    for line in lines {
        if let Line::Stack(stack) = line {
            write!(out, "{:04X} {:04X}", stack.at.least, stack.at.greatest)?;
        }
    }
    Ok(())
}

/// Adds these numbers of a report.
pub fn push_stack(alloc: Global, out: &mut String, text: &str) -> Result<(), Memory> {
    let Ok(report) = read(alloc, text.as_bytes()) else {
        return Ok(());
    };
    let pushed = push_sets(out, report.lines.as_slice());
    drop(report);
    Ok(pushed?)
}
