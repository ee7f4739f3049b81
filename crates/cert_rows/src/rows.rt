//! Whether a row holds.

ghost use Rattle.std.specs.Prelude.{◌≡◌, ◌≤◌, length};

use crate::countdown::Countdown;
use crate::texts::{long_certificate, text_of};
use call_context::Node;
use cert_check::{CheckError, Refusal, check};
use cert_text::{Cert, MOST_BYTES, ReadError, Reader, write};
use no_memory::Memory;
use node_fields::push_node;
use round_core::Book;
use state_text::{LawfulText, Outside};
use std::alloc::{AllocError, Global};
use vsa_io::CleanSink;
use worker_rounds::fixpoint_alone;

/// What a reader answers of a text in two pieces.
fn in_two(alloc: Global, text: &[u8], cut: usize) -> Result<Cert<Countdown>, ReadError>
    requires room { length text.now ≤ MOST_BYTES }
    requires within { cut ≤ length text.now }
{
    let mut reader = Reader::new(alloc, &Countdown);
    reader.feed(alloc, &Countdown, &text[..cut])?;
    reader.feed(alloc, &Countdown, &text[cut..])?;
    reader.end()
}

/// Bytes that are a text.
fn shown(bytes: &[u8]) -> &str {
    str::from_utf8(bytes).unwrap_or("no text")
}

/// That a state isn't within the one held.
fn outside_of(
    alloc: Global,
    line: u32,
    node: &[u8],
    outside: &Outside,
) -> Result<String, AllocError> {
    format!(in alloc;
        "outside {line} {} {} {} {}",
        shown(node),
        shown(outside.field.as_slice()),
        shown(outside.posted.as_slice()),
        shown(outside.held.as_slice())
    )
}

/// Why a table is refused.
fn refused(alloc: Global, refusal: &Refusal) -> Result<String, AllocError> {
    let mut node = Vec::new(alloc);
    match refusal {
        Refusal::NoStart => String::from_str(alloc, "no start"),
        Refusal::Unknown { line, target } => {
            push_node(&mut node, target, 4)?;
            format!(in alloc; "unknown {line} {}", shown(&node))
        }
        Refusal::NotIn {
            line,
            target,
            outside,
        } => {
            push_node(&mut node, target, 4)?;
            outside_of(alloc, *line, &node, outside)
        }
        Refusal::HasOpen { line, pc, cause } => format!(in alloc; "open {line} {pc} {cause:?}"),
    }
}

/// What is said of a text in two pieces.
fn said(alloc: Global, text: &[u8], cut: usize) -> Result<String, AllocError>
    requires room { length text.now ≤ MOST_BYTES }
    requires within { cut ≤ length text.now }
{
    let cert = match in_two(alloc, text, cut) {
        Ok(cert) => cert,
        Err(ReadError::Bad { line, fault }) => return format!(in alloc; "faulty {line} {fault:?}"),
        Err(ReadError::Memory) => return Err(AllocError),
    };
    match check(alloc, &Countdown, cert) {
        Ok(book) => format!(in alloc; "closed {}", book.nodes().len()),
        Err(CheckError::Refused(refusal)) => refused(alloc, &refusal),
        Err(CheckError::Memory) => Err(AllocError),
    }
}

/// Whether this is said of a text, wherever it is cut up to there.
fn is_said(alloc: Global, wanted: &str, text: &[u8], last: usize) -> Result<bool, AllocError> {
    if text.len() > MOST_BYTES {
        return Ok(false);
    }
    for cut in 0..text.len().min(last) + 1 {
        if said(alloc, text, cut)?.as_str() != wanted {
            return Ok(false);
        }
    }
    Ok(true)
}

/// Whether a text is the certificate of a book.
fn is_written<C: LawfulText>(alloc: Global, chip: &C, book: &Book<C>, text: &[u8]) -> Option<bool>
    requires { C.base chip.now ≡ book.now.base }
{
    let mut sink = CleanSink::with_room(alloc, 7, 100).ok()?;
    write(alloc, chip, book, &mut sink).ok()?;
    Some(sink.bytes() == text)
}

/// Whether a text is the certificate of what the analysis of a chip finds.
fn is_own<C: LawfulText>(alloc: Global, chip: &C, text: &[u8]) -> Result<bool, AllocError> {
    match fixpoint_alone(alloc, chip) {
        Ok(book) => is_written(alloc, chip, &book, text).ok_or(AllocError),
        Err(Memory) => Err(AllocError),
    }
}

/// Whether a line holds.
pub fn holds(alloc: Global, line: &str) -> Result<bool, AllocError> {
    let (wanted, written) = line.split_once('|').unwrap_or((line, ""));
    let wanted = wanted.trim();
    let written = written.trim();
    if let Some(wanted) = wanted.strip_prefix("long ") {
        let addresses = written.parse::<u16>().unwrap_or(0);
        let text = long_certificate(alloc, addresses)?;
        return is_said(alloc, wanted, &text, 0);
    }
    let text = text_of(alloc, written)?;
    let text = text.as_str().as_bytes();
    if wanted == "own" {
        is_own(alloc, &Countdown, text)
    } else {
        is_said(alloc, wanted, text, text.len())
    }
}
