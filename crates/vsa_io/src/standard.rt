//! The standard input and output as streams. They tell no bytes.

ghost use Rattle.std.specs.Prelude.{◌≡◌, ◌≤◌, ◌<◌, length, None, IfOk, OnOk, OnErr};
ghost use Rattle.streams.specs.Count.{one_more};
ghost use Rattle.streams.specs.Stream.{HasRisen};

use std::io;
use std::io::{Input, Print, Printer, Read, Write};
use std::marker::Model;
use streams::{Failed, Sink, Source};

/// The standard input. A clause sees it as the number of its faults.
#[derive(Drop)]
pub struct StdinSource<I: Input> {
    reader: I::Reader,
    faults: u64,
}

impl<I: Input> Model for StdinSource<I> {
    ghost use Rattle.std.specs.Prelude.{ℕ};

    ghost Value = { ℕ };

    ghost view = { λ s. s.faults };
}

impl<I: Input> StdinSource<I> {
    /// The standard input of this runtime, with no fault counted.
    pub fn new(rt: &I) -> StdinSource<I>
        ensures { result ≡ 0 }
    {
        StdinSource {
            reader: rt.reader(),
            faults: 0,
        }
    }
}

impl<I: Input> Source for StdinSource<I> {
    ghost left = { λ _. None };

    ghost faults = { λ s. s };

    fn read(&mut self, buffer: &mut [u8]) -> Result<usize, Failed>
        ensures fits { IfOk result (λ n. n ≤ length buffer.old) }
        ensures counted { OnErr result (self.new ≡ one_more self.old) }
        ensures cause { OnErr result (HasRisen self.old self.new) }
        ensures quiet { OnOk result (self.new ≡ self.old) }
        ensures never_falls { self.old ≤ self.new }
    {
        match self.reader.read(buffer) {
            Ok(count) => Ok(count),
            Err(_) => {
                self.faults = self.faults.saturating_add(1);
                Err(Failed)
            }
        }
    }
}

/// The standard output. Each write goes straight to it, so nothing is held back. A clause sees it as the
/// number of its faults.
#[derive(Drop)]
pub struct StdoutSink<'a, P: Print> {
    writer: Printer<'a, P>,
    faults: u64,
    is_closed: bool,
}

impl<'a, P: Print> Model for StdoutSink<'a, P> {
    ghost use Rattle.std.specs.Prelude.{ℕ};

    ghost Value = { ℕ };

    ghost view = { λ s. s.faults };
}

impl<'a, P: Print> StdoutSink<'a, P> {
    /// The standard output of this runtime, with no fault counted.
    pub fn new(rt: &'a P) -> StdoutSink<'a, P>
        ensures { result ≡ 0 }
    {
        StdoutSink {
            writer: io::writer(rt),
            faults: 0,
            is_closed: false,
        }
    }

    /// Whether the last write that failed did so since nobody reads any more, as where `head` does.
    pub fn is_closed(&self) -> bool {
        self.is_closed
    }
}

impl<'a, P: Print> Sink for StdoutSink<'a, P> {
    ghost held = { λ _. None };

    ghost faults = { λ s. s };

    fn write(&mut self, bytes: &[u8]) -> Result<usize, Failed>
        ensures fits { IfOk result (λ n. n ≤ length bytes.now) }
        ensures counted { OnErr result (self.new ≡ one_more self.old) }
        ensures stall_counted { IfOk result (λ n. n ≡ 0 → 0 < length bytes.now → self.new ≡ one_more self.old) }
        ensures cause { OnErr result (HasRisen self.old self.new) }
        ensures stalled { IfOk result (λ n. n ≡ 0 → 0 < length bytes.now → HasRisen self.old self.new) }
        ensures quiet { IfOk result (λ n. 0 < n → self.new ≡ self.old) }
        ensures nothing_to_do { length bytes.now ≡ 0 → OnOk result (self.new ≡ self.old) }
        ensures never_falls { self.old ≤ self.new }
    {
        match self.writer.write(bytes) {
            Ok(count) => {
                if count == 0 && !bytes.is_empty() {
                    self.faults = self.faults.saturating_add(1);
                }
                Ok(count)
            }
            Err(error) => {
                self.is_closed = error.kind() == io::ErrorKind::BrokenPipe;
                self.faults = self.faults.saturating_add(1);
                Err(Failed)
            }
        }
    }
}
