//! What lines say, and whether a row holds.

ghost use Rattle.std.specs.Prelude.{◌<◌};

use crate::ways::{ROOM, Way};
use crate::workers::work_at_once;
use disassembly::disassembly_of;
use row_parts::{add_line, image_of, text_of, words_of};
use std::alloc::{AllocError, Global};
use std::str;
use std::sync::Wait;
use std::thread::Threads;
use vsa_io::{MemSink, MemSource, Memory};
use vsa_top::{Msp430Code, NoGate, Status, vsa};

/// Which part of what is written an answer is.
#[derive(Clone, Copy)]
enum Part {
    Whole,
    Front,
    Back,
    /// The lines that begin with E or M.
    Moves,
}

/// What the lines so far say.
#[derive(Drop)]
pub struct Rows {
    pub input: String,
    pub answer: String,
    part: Part,
    times: u32,
    /// One for the source and one for the sink, where a row says them.
    pub source: Option<Way>,
    pub sink: Option<Way>,
}

/// Whether the lines of a report that begin with E or M are these.
fn are_moves(report: &[u8], lines: &str) -> bool {
    let mut lines = lines.lines();
    for line in str::from_utf8(report).unwrap_or("").lines() {
        let is_move = line.starts_with("E ") || line.starts_with("M ");
        if is_move && lines.next() != Some(line) {
            return false;
        }
    }
    lines.next().is_none()
}

/// What a call by these words answers.
pub fn status_of<R: Threads + Wait + AllocGlobal + Sync>(
    rt: &R,
    words: &[String],
    source: &mut MemSource,
    sink: &mut MemSink,
) -> Status {
    vsa(rt, rt.alloc(), words, source, sink, &NoGate).status
}

impl Rows {
    pub fn new(alloc: Global) -> Rows {
        Rows {
            input: String::new(alloc),
            answer: String::new(alloc),
            part: Part::Whole,
            times: 1,
            source: None,
            sink: None,
        }
    }

    /// Does what a line says, and tells whether it holds where it is a row.
    pub fn take<R: Threads + Wait + AllocGlobal + Sync>(
        &mut self,
        rt: &R,
        line: &str,
    ) -> Result<Option<bool>, AllocError> {
        let alloc = rt.alloc();
        let (word, rest) = line.split_once(' ').unwrap_or((line, ""));
        let done = match word {
            "" | "#" => Ok(()),
            "input" | "+" | "feeds" => self.take_input(alloc, word, rest),
            ">" => add_line(&mut self.answer, rest),
            "repeat" => self.repeat(alloc, rest),
            "answer" => self.answer_by(alloc, Part::Whole, rest),
            "front" => self.answer_by(alloc, Part::Front, rest),
            "back" => self.answer_by(alloc, Part::Back, rest),
            "moves" => self.answer_by(alloc, Part::Moves, rest),
            "source" | "sink" | "sound" | "times" => self.take_way(alloc, word, rest),
            _ => return self.holds(rt, word, rest).map(Some),
        };
        done.and(Ok(None))
    }

    /// Begins the input, or adds to it.
    fn take_input(&mut self, alloc: Global, word: &str, rest: &str) -> Result<(), AllocError> {
        match word {
            "input" => {
                self.input = text_of(alloc, rest)?;
                Ok(())
            }
            "+" => add_line(&mut self.input, rest),
            _ => self.feed(rest),
        }
    }

    /// Sets how the streams go, or how often rows are asked.
    fn take_way(&mut self, alloc: Global, word: &str, rest: &str) -> Result<(), AllocError> {
        match word {
            "source" => self.source = Some(Way::of_source(alloc, rest)?),
            "sink" => self.sink = Some(Way::of_sink(alloc, rest)?),
            "sound" => {
                self.source = None;
                self.sink = None;
            }
            _ => self.times = rest.parse::<u32>().unwrap_or(1),
        }
        Ok(())
    }

    /// Begins an answer.
    fn answer_by(&mut self, alloc: Global, part: Part, text: &str) -> Result<(), AllocError> {
        self.part = part;
        self.answer = text_of(alloc, text)?;
        Ok(())
    }

    /// Adds line feeds, until the input has so many bytes.
    fn feed(&mut self, count: &str) -> Result<(), AllocError> {
        let count = count.parse::<usize>().unwrap_or(0);
        for _ in self.input.len()..count {
            self.input.push('\n')?;
        }
        Ok(())
    }

    /// Adds a text to the answer, so many times.
    fn repeat(&mut self, alloc: Global, line: &str) -> Result<(), AllocError> {
        let (count, text) = line.split_once(' ').unwrap_or((line, ""));
        let text = text_of(alloc, text)?;
        for _ in 0..count.parse::<u16>().unwrap_or(0) {
            self.answer.push_str(text.as_str())?;
        }
        Ok(())
    }

    /// Whether the list of an image of these pieces is the answer.
    fn is_listing(&self, alloc: Global, pieces: &str) -> Result<bool, AllocError> {
        let Some(image) = image_of(alloc, pieces)? else {
            return Ok(false);
        };
        let lines = disassembly_of::<Msp430Code>(alloc, &image)?;
        Ok(self.is_part_of(lines.as_slice()))
    }

    /// Whether a row holds.
    fn holds<R: Threads + Wait + AllocGlobal + Sync>(
        &self,
        rt: &R,
        word: &str,
        rest: &str,
    ) -> Result<bool, AllocError> {
        match word {
            "listing" => self.is_listing(rt.alloc(), rest),
            "at-once" => self.is_at_once(rt, rest),
            "reads" => self.are_reads(rt, rest),
            "writes" => self.are_writes(rt, rest),
            "fronts" => self.are_fronts(rt, rest),
            _ => self.is_always_answered(rt, word, rest),
        }
    }

    /// Whether the call by these words has its workers work at once, behind so many claims.
    fn is_at_once<R: Threads + Wait + AllocGlobal + Sync>(
        &self,
        rt: &R,
        line: &str,
    ) -> Result<bool, AllocError> {
        let (alone, rest) = line.split_once(' ').unwrap_or((line, ""));
        let alone = alone.parse::<u64>().unwrap_or(0);
        let words = words_of(rt.alloc(), rest)?;
        let (mut source, mut sink) = self.streams(rt.alloc(), 4096)?;
        Ok(work_at_once(rt, alone, words.as_slice(), &mut source, &mut sink))
    }

    /// Whether the call by these words answers as it should, each time, by small pieces and by large ones.
    fn is_always_answered<R: Threads + Wait + AllocGlobal + Sync>(
        &self,
        rt: &R,
        status: &str,
        line: &str,
    ) -> Result<bool, AllocError> {
        let words = words_of(rt.alloc(), line)?;
        for _ in 0..self.times {
            if !self.is_answered(rt, words.as_slice(), status, 1)?
                || !self.is_answered(rt, words.as_slice(), status, 4096)?
            {
                return Ok(false);
            }
        }
        Ok(true)
    }

    /// Whether the call by these words answers this status and what is to be written.
    fn is_answered<R: Threads + Wait + AllocGlobal + Sync>(
        &self,
        rt: &R,
        words: &[String],
        status: &str,
        piece: usize,
    ) -> Result<bool, AllocError>
        requires { 0 < piece }
    {
        let (mut source, mut sink) = self.streams(rt.alloc(), piece)?;
        let told = status_of(rt, words, &mut source, &mut sink);
        let is_written = self.is_part_of(sink.bytes());
        drop((source, sink));
        let told = format!(in rt.alloc(); "{told:?}")?;
        Ok(is_written && told.as_str() == status)
    }

    /// The source and the sink, of such pieces where no row says others.
    fn streams(&self, alloc: Global, piece: usize) -> Result<(MemSource, MemSink), AllocError>
        requires { 0 < piece }
    {
        let source = self.source(alloc, piece).ok();
        let sink = self.sink(alloc, piece).ok();
        source.zip(sink).ok_or(AllocError)
    }

    fn source(&self, alloc: Global, piece: usize) -> Result<MemSource, AllocError>
        requires { 0 < piece }
    {
        let bytes = Vec::from_slice(alloc, self.input.as_bytes())?;
        Ok(match &self.source {
            Some(way) => MemSource::new(bytes, way.piece, way.failing.clone()?),
            None => MemSource::new(bytes, piece, Vec::new(alloc)),
        })
    }

    fn sink(&self, alloc: Global, piece: usize) -> Result<MemSink, AllocError>
        requires { 0 < piece }
    {
        let made = match &self.sink {
            Some(way) => MemSink::with_room(alloc, way.piece, way.room, way.failing.clone()?),
            None => MemSink::with_room(alloc, piece, ROOM, Vec::new(alloc)),
        };
        match made {
            Ok(sink) => Ok(sink),
            Err(Memory) => Err(AllocError),
        }
    }

    /// Whether the answer is what was written, or the part of it that it is to be.
    fn is_part_of(&self, written: &[u8]) -> bool {
        let answer = self.answer.as_bytes();
        match self.part {
            Part::Whole => written == answer,
            Part::Front => written.starts_with(answer),
            Part::Back => written.ends_with(answer),
            Part::Moves => are_moves(written, self.answer.as_str()),
        }
    }
}
