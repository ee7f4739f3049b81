//! How far an analysis is, in words.

use std::alloc::{AllocError, Global};
use std::fmt::Write;

/// The line of so many seconds, units and nodes. Several workers don't know the nodes, which are then 0.
pub fn line_of(
    alloc: Global,
    second: u64,
    memory: Option<u64>,
    turns: u64,
    (nodes, waiting): (u64, u64),
) -> Result<String, AllocError> {
    let (minutes, seconds) = (second / 60, second % 60);
    let mut line = format!(in alloc; "vsa: at work for {minutes}:{seconds:02}")?;
    add_counts(&mut line, memory, turns, (nodes, waiting)).and(Ok(line))
}

/// Adds megabytes, nodes, turns and units, as far as they are known.
fn add_counts(
    line: &mut String,
    memory: Option<u64>,
    turns: u64,
    (nodes, waiting): (u64, u64),
) -> Result<(), AllocError> {
    if let Some(megabytes) = memory {
        write!(line, ", {megabytes} MB")?;
    }
    if nodes > 0 {
        write!(line, ", {nodes} nodes, {turns} turns, {waiting} units left")
    } else {
        write!(line, ", {turns} turns")
    }
}

/// The megabytes that a process takes, by what the system tells of it.
pub fn megabytes_in(status: &str) -> Option<u64> {
    let line = status.lines().find(|line| line.starts_with("VmRSS:"))?;
    let kilobytes = line.split_ascii_whitespace().nth(1)?.parse::<u64>().ok()?;
    Some(kilobytes.saturating_add(1023) / 1024)
}
