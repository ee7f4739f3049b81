//! Warnings of what a report shows that is rarely meant.

use crate::mirrored::{Mirrored, mirrored_in};
use crate::source::NotedSource;
use crate::words::has_word;
use report_watch::{Mcs51Seen, Msp430Seen, Seen, Watch};
use std::alloc::Global;
use std::io;
use streams::Source;
use vsa_words::{Reading, Target, reading_of};

/// What looks at the lines of an answer to these words: at those of a report.
pub fn watch_of(alloc: Global, words: &[String]) -> Option<Watch> {
    let target = match reading_of(alloc, words).ok()?? {
        Reading::Analyse { task } => task.target,
        Reading::Check { task } => task.target,
        _ => return None,
    };
    Some(Watch::new(match target {
        Target::Msp430 { ram } => Seen::Msp430(Msp430Seen::new(alloc, ram)),
        Target::Mcs51 => Seen::Mcs51(Mcs51Seen::new(alloc)),
    }))
}

/// Warns of what a report of the MSP430 shows that is rarely meant.
fn warn_of_msp430(rt: &impl Eprint, seen: &Msp430Seen) -> io::Result<()> {
    if let Some(pc) = seen.allowed_in_vain() {
        eprintln!(rt;
            "vsa: warning: the instruction at {pc:04X}h allows interrupts, and no handler is in the report, since the image has no vector of one. Did the linker script leave out the vectors, FFE0h to FFFDh?"
        )?;
    }
    if let Some((variable, low)) = seen.overwritten() {
        let (at, pc) = (variable.at, variable.pc);
        eprintln!(rt;
            "vsa: warning: the stack pointer falls to {low:04X}h, and the stack then has {at:04X}h, which the instruction at {pc:04X}h names: is a variable overwritten?"
        )?;
    }
    Ok(())
}

/// Warns of what a report of the MCS-51 shows that is rarely meant.
fn warn_of_mcs51(rt: &impl Eprint, seen: &Mcs51Seen) -> io::Result<()> {
    if let Some(variable) = seen.overwritten() {
        let (at, pc) = (variable.at, variable.pc);
        eprintln!(rt;
            "vsa: warning: the stack has the byte {at:02X}h of RAM, which the instruction at {pc:04X}h uses: is a variable or a register overwritten? Behind a reset the stack begins at 08h."
        )?;
    }
    Ok(())
}

/// Warns of what a report shows that is rarely meant.
pub fn print_warnings(rt: &impl Eprint, watch: &Watch) -> io::Result<()> {
    match watch.seen() {
        Seen::Msp430(seen) => warn_of_msp430(rt, seen),
        Seen::Mcs51(seen) => warn_of_mcs51(rt, seen),
    }
}

/// Whether these words ask for assertions, and none stands behind the image text.
pub fn lacks_assertions<S: Source + Drop>(words: &[String], source: &NotedSource<S>) -> bool {
    has_word(words, "assert") && source.second_lines() == 0
}

/// Warns where no assertion was asked, as any image that closes holds then, and where one speaks of the mirror alone.
pub fn print_unasked<S: Source + Drop>(
    rt: &impl Eprint,
    words: &[String],
    source: &NotedSource<S>,
) -> io::Result<()> {
    if lacks_assertions(words, source) {
        eprintln!(rt;
            "vsa: warning: no assertion stands behind the image text, and then any image holds whose report is closed. Is their file left out, as the last word, or empty?"
        )?;
    }
    match source.kept() {
        Some((alloc, text)) => print_mirrored(rt, mirrored_in(alloc, words, text)),
        None => Ok(()),
    }
}

/// Warns of an assertion on the mirror alone.
fn print_mirrored(rt: &impl Eprint, found: Option<Mirrored>) -> io::Result<()> {
    let Some(Mirrored { line, ram }) = found else {
        return Ok(());
    };
    eprintln!(rt;
        "vsa: warning: the assertion in line {line} speaks of the mirror of RAM alone. Accesses there are told by RAM's addresses, from {ram:04X}h on, so nothing can break it: say it of these."
    )
}
