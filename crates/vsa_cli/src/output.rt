//! The standard output, which remembers whether its reader went away.

ghost use Rattle.std.specs.Prelude.{◌≡◌, ◌≤◌, ◌<◌, length, None, IfOk, OnOk, OnErr};
ghost use Rattle.streams.specs.Count.{one_more};
ghost use Rattle.streams.specs.Stream.{HasRisen};

use crate::progress::Progress;
use std::io;
use std::io::{Print, Printer, Write};
use std::rt::{Clock, Files};
use streams::{Failed, Sink};

/// A sink over the standard output.
#[derive(Drop)]
pub struct Output<'a, P: Print> {
    writer: Printer<'a, P>,
    /// The line that must go before there is output, which may come to the same terminal.
    progress: &'a Progress<'a, P>,
    faults: u64,
    is_closed: bool,
}

impl<'a, P: Print> Output<'a, P> {
    /// The standard output of this runtime, with no fault counted.
    pub fn new(rt: &'a P, progress: &'a Progress<'a, P>) -> Output<'a, P> {
        Output {
            writer: io::writer(rt),
            progress,
            faults: 0,
            is_closed: false,
        }
    }

    /// Whether a write failed since nobody reads any more, as `vsa .. | head` does.
    pub fn is_closed(&self) -> bool {
        self.is_closed
    }
}

impl<'a, P: Print + Clock + Eprint + Files + AllocGlobal> Sink for Output<'a, P> {
    ghost held = { λ _. None };

    ghost faults = { λ s. s.faults };

    fn write(&mut self, bytes: &[u8]) -> Result<usize, Failed>
        ensures fits { IfOk result (λ n. n ≤ length bytes.now) }
        ensures cause { OnErr result (HasRisen self.old.faults self.new.faults) }
        ensures stalled { IfOk result (λ n. n ≡ 0 → 0 < length bytes.now → HasRisen self.old.faults self.new.faults) }
        ensures quiet { IfOk result (λ n. 0 < n → self.new.faults ≡ self.old.faults) }
        ensures nothing_to_do { length bytes.now ≡ 0 → OnOk result (self.new.faults ≡ self.old.faults) }
        ensures never_falls { self.old.faults ≤ self.new.faults }
    {
        self.progress.clear();
        match self.writer.write(bytes) {
            Ok(count) => {
                if count == 0 && !bytes.is_empty() {
                    self.faults = self.faults.saturating_add(1);
                }
                Ok(count)
            }
            Err(error) => {
                self.is_closed = error.kind() == io::ErrorKind::BrokenPipe;
                self.faults = self.faults.saturating_add(1);
                Err(Failed)
            }
        }
    }
}
