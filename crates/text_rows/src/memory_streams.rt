//! Streams in memory.

ghost use Rattle.std.specs.Prelude.{◌<◌};

use crate::numbers::{count_of, halves, push_bytes};
use no_memory::Memory;
use std::alloc::{AllocError, Global};
use vsa_io::{CleanSink, CleanSource, Failed, MemSink, MemSource, Sink, Source, write_all};

/// How many bytes a call gives or takes: at least one.
pub fn piece_of(digits: &str) -> usize
    ensures { 0 < result }
{
    count_of(digits).max(1)
}

/// The numbers of the calls that fail.
pub fn failing(alloc: Global, calls: &str) -> Result<Vec<u64>, AllocError> {
    let mut all = Vec::new(alloc);
    for call in calls.split(',') {
        all.push(call.parse::<u64>().unwrap_or(0))?;
    }
    Ok(all)
}

/// Adds what reads into five bytes give, up to the end.
fn push_pieces<S: Source>(out: &mut String, source: &mut S) -> Result<(), Memory> {
    let mut buffer = [0u8; 5];
    for _ in 0..9 {
        match source.read(&mut buffer) {
            Ok(0) => break,
            Ok(count) => push_bytes(out, buffer.get(..count).unwrap_or(&[]))?,
            Err(Failed) => out.push_str("fails")?,
        }
        out.push(' ')?;
    }
    Ok(out.push_str("end")?)
}

/// Adds what reads of a source give.
pub fn push_reads(alloc: Global, out: &mut String, asked: &str) -> Result<(), Memory> {
    let (piece, rest) = halves(asked);
    let (calls, text) = halves(rest);
    let bytes = Vec::from_slice(alloc, text.as_bytes())?;
    if calls == "-" {
        return push_pieces(out, &mut CleanSource::new(bytes, piece_of(piece)));
    }
    let calls = failing(alloc, calls)?;
    push_pieces(out, &mut MemSource::new(bytes, piece_of(piece), calls))
}

/// Adds what a sink says of each text. Behind `!` it is one write.
fn push_answers<K: Sink>(out: &mut String, sink: &mut K, texts: &str) -> Result<(), Memory> {
    for text in texts.split('|') {
        let answer = match text.strip_prefix('!') {
            Some(once) => sink.write(once.as_bytes()),
            None => write_all(sink, text.as_bytes()).map(|_| text.len()),
        };
        match answer {
            Ok(count) => write!(out, "{count} ")?,
            Err(Failed) => out.push_str("fails ")?,
        }
    }
    Ok(())
}

/// Adds what a sink that doesn't fail says of each text, and what it holds.
fn push_clean(
    alloc: Global,
    out: &mut String,
    piece: usize,
    room: usize,
    texts: &str,
) -> Result<(), Memory>
    requires { 0 < piece }
{
    let mut sink = CleanSink::with_room(alloc, piece, room)?;
    push_answers(out, &mut sink, texts)?;
    Ok(push_bytes(out, sink.bytes())?)
}

/// The same of a sink that fails at some calls.
fn push_failing(
    alloc: Global,
    out: &mut String,
    piece: usize,
    room: usize,
    calls: &str,
    texts: &str,
) -> Result<(), Memory>
    requires { 0 < piece }
{
    let mut sink = MemSink::with_room(alloc, piece, room, failing(alloc, calls)?)?;
    push_answers(out, &mut sink, texts)?;
    Ok(push_bytes(out, sink.bytes())?)
}

/// Adds what a sink says of each text, and what it holds.
pub fn push_writes(alloc: Global, out: &mut String, asked: &str) -> Result<(), Memory> {
    let (piece, rest) = halves(asked);
    let (room, rest) = halves(rest);
    let (calls, texts) = halves(rest);
    let (piece, room) = (piece_of(piece), count_of(room));
    if calls == "-" {
        push_clean(alloc, out, piece, room, texts)
    } else {
        push_failing(alloc, out, piece, room, calls, texts)
    }
}
