//! What is seen of a report.

use report_watch::{Seen, Variable, Watch};
use row_parts::words_of;
use std::alloc::{AllocError, Global};
use vsa_advice::watch_of;

/// How many bytes of a report are looked at at once.
const PIECE: usize = 16;

/// What looked at a report, piece by piece, where these words ask for it.
fn looked(alloc: Global, asked: &str, report: &str) -> Result<Option<Watch>, AllocError> {
    let words = words_of(alloc, asked)?;
    let Some(mut watch) = watch_of(alloc, words.as_slice()) else {
        return Ok(None);
    };
    for piece in report.as_bytes().chunks(PIECE) {
        watch.look(piece);
    }
    Ok(Some(watch))
}

/// The instruction that allows interrupts in vain.
pub fn vain(alloc: Global, asked: &str, report: &str) -> Result<String, AllocError> {
    if let Some(watch) = looked(alloc, asked, report)?
        && let Seen::Msp430(seen) = watch.seen()
        && let Some(pc) = seen.allowed_in_vain()
    {
        return format!(in alloc; "{pc:04X}");
    }
    String::from_str(alloc, "none")
}

/// The byte within the stack that an instruction uses, the instruction, and the least stack pointer of an MSP430.
pub fn overwritten(alloc: Global, asked: &str, report: &str) -> Result<String, AllocError> {
    let Some(watch) = looked(alloc, asked, report)? else {
        return String::from_str(alloc, "no report");
    };
    match watch.seen() {
        Seen::Msp430(seen) => match seen.overwritten() {
            Some((Variable { at, pc }, low)) => format!(in alloc; "{at:04X} {pc:04X} {low:04X}"),
            None => String::from_str(alloc, "none"),
        },
        Seen::Mcs51(seen) => match seen.overwritten() {
            Some(Variable { at, pc }) => format!(in alloc; "{at:02X} {pc:04X}"),
            None => String::from_str(alloc, "none"),
        },
    }
}
