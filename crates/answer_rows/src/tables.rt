//! Tables: a stream that fails at one call after the other, and each front of an input.

ghost use Rattle.std.specs.Prelude.{◌<◌};

use crate::rows::{Rows, status_of};
use crate::ways::{ROOM, Way};
use row_parts::words_of;
use std::alloc::{AllocError, Global};
use std::sync::Wait;
use std::thread::Threads;
use vsa_io::{MemSink, MemSource, Memory};
use vsa_top::Status;

/// The bytes a call of a way, or one.
fn piece_of(way: &Option<Way>) -> usize
    ensures { 0 < result }
{
    match way {
        Some(way) => way.piece,
        None => 1,
    }
}

/// A list of one call, or of none.
fn calls_of(alloc: Global, call: Option<u64>) -> Result<Vec<u64>, AllocError> {
    let mut calls = Vec::new(alloc);
    if let Some(call) = call {
        calls.push(call)?;
    }
    Ok(calls)
}

/// The number in front of a text, or 0, and what stands behind it.
fn number_of(text: &str) -> (u64, &str) {
    let (number, rest) = text.split_once(' ').unwrap_or((text, ""));
    (number.parse::<u64>().unwrap_or(0), rest)
}

/// How a stream's failing calls are told: the status, whether the stream is the source, and how many bytes of the answer each call
/// in front of them has had written.
#[derive(Clone, Copy)]
struct Fault {
    status: &'static str,
    of_source: bool,
    piece: usize,
}

impl Rows {
    /// A source of so many bytes of the input, by the pieces of the source's row, that fails at this call.
    fn source_of(
        &self,
        alloc: Global,
        length: usize,
        call: Option<u64>,
    ) -> Result<MemSource, AllocError> {
        let front = self.input.as_bytes().get(..length).unwrap_or(b"");
        let bytes = Vec::from_slice(alloc, front)?;
        Ok(MemSource::new(bytes, piece_of(&self.source), calls_of(alloc, call)?))
    }

    /// A sink by the pieces of the sink's row that fails at this call.
    fn sink_of(&self, alloc: Global, call: Option<u64>) -> Result<MemSink, AllocError> {
        let calls = calls_of(alloc, call)?;
        match MemSink::with_room(alloc, piece_of(&self.sink), ROOM, calls) {
            Ok(sink) => Ok(sink),
            Err(Memory) => Err(AllocError),
        }
    }

    /// Whether a call by these words answers this status and the first bytes of the answer, as many as are given.
    fn is_cut<R: Threads + Wait + AllocGlobal + Sync>(
        &self,
        rt: &R,
        words: &[String],
        mut source: MemSource,
        mut sink: MemSink,
        cut: (&str, usize),
    ) -> Result<bool, AllocError> {
        let told = status_of(rt, words, &mut source, &mut sink);
        let told = format!(in rt.alloc(); "{told:?}")?;
        let front = self.answer.as_bytes().get(..cut.1);
        Ok(told.as_str() == cut.0 && front == Some(sink.bytes()))
    }

    /// The table of one stream's calls: where one of the first COUNT fails, the status is that of the fault, and so many bytes
    /// more of the answer are there with each call; the call behind them never comes, so that the answer is whole.
    fn are_faults<R: Threads + Wait + AllocGlobal + Sync>(
        &self,
        rt: &R,
        line: &str,
        fault: Fault,
    ) -> Result<bool, AllocError> {
        let alloc = rt.alloc();
        let (count, row) = number_of(line);
        let (status, line) = row.split_once(' ').unwrap_or((row, ""));
        let words = words_of(alloc, line)?;
        let mut length = 0usize;
        for call in 1..=count.saturating_add(1) {
            let cut = if call <= count {
                (fault.status, length)
            } else {
                (status, self.answer.len())
            };
            let source = self.source_of(alloc, self.input.len(), fault.of_source.then_some(call))?;
            let sink = self.sink_of(alloc, (!fault.of_source).then_some(call))?;
            if !self.is_cut(rt, words.as_slice(), source, sink, cut)? {
                return Ok(false);
            }
            length = length.saturating_add(fault.piece);
        }
        Ok(true)
    }

    /// The row `reads COUNT STATUS WORDS`: a source that fails at one of its first COUNT calls gives ReadFault, and nothing is
    /// written.
    pub fn are_reads<R: Threads + Wait + AllocGlobal + Sync>(
        &self,
        rt: &R,
        line: &str,
    ) -> Result<bool, AllocError> {
        let fault = Fault {
            status: "ReadFault",
            of_source: true,
            piece: 0,
        };
        self.are_faults(rt, line, fault)
    }

    /// The row `writes COUNT STATUS WORDS`: a sink that fails at one of its first COUNT calls, of so many bytes each as its row
    /// says, gives WriteFault and holds what the calls in front of it took.
    pub fn are_writes<R: Threads + Wait + AllocGlobal + Sync>(
        &self,
        rt: &R,
        line: &str,
    ) -> Result<bool, AllocError> {
        let fault = Fault {
            status: "WriteFault",
            of_source: false,
            piece: piece_of(&self.sink),
        };
        self.are_faults(rt, line, fault)
    }

    /// The row `fronts FIRST LAST STATUS WORDS`: each front of the input that has from FIRST to LAST bytes gives this status and
    /// the answer.
    pub fn are_fronts<R: Threads + Wait + AllocGlobal + Sync>(
        &self,
        rt: &R,
        line: &str,
    ) -> Result<bool, AllocError> {
        let alloc = rt.alloc();
        let (first, rest) = number_of(line);
        let (last, row) = number_of(rest);
        let (status, line) = row.split_once(' ').unwrap_or((row, ""));
        let words = words_of(alloc, line)?;
        for length in first..=last {
            let source = self.source_of(alloc, length as usize, None)?;
            let sink = self.sink_of(alloc, None)?;
            let cut = (status, self.answer.len());
            if !self.is_cut(rt, words.as_slice(), source, sink, cut)? {
                return Ok(false);
            }
        }
        Ok(true)
    }
}
