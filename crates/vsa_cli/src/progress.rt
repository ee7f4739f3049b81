//! How far an analysis is, on standard error.

use std::rt::{Clock, Files};
use std::sync::atomic::{AtomicU64, Ordering};
use std::time::Instant;
use std::{fs, io};
use vsa_advice::{line_of, megabytes_in};
use vsa_top::Gate;

/// After so many seconds it is told for the first time, and from then on once a second.
const PATIENCE: u64 = 5;

/// So many works are posted between two looks at the clock.
const LOOK: u64 = 64;

/// What tells how far an analysis is, in a line that is written anew each second.
#[derive(Drop)]
pub struct Progress<'a, R> {
    rt: &'a R,
    /// When the work began, where it is told.
    start: Option<Instant>,
    turns: AtomicU64,
    nodes: AtomicU64,
    waiting: AtomicU64,
    /// The second from which on the line is due.
    due: AtomicU64,
}

impl<'a, R: Clock> Progress<'a, R> {
    /// What tells it on a terminal. Elsewhere, or where there is no clock, nothing is told.
    pub fn new(rt: &'a R, is_terminal: bool) -> Progress<'a, R> {
        Progress {
            rt,
            start: if is_terminal {
                Instant::now(rt).ok()
            } else {
                None
            },
            turns: AtomicU64::new(0),
            nodes: AtomicU64::new(0),
            waiting: AtomicU64::new(0),
            due: AtomicU64::new(PATIENCE),
        }
    }

    /// The seconds since the beginning, in one call a second from the sixth on.
    fn due_second(&self, start: Instant) -> Option<u64> {
        let second = start.elapsed(self.rt).ok()?.as_secs();
        let due = self.due.load(Ordering::SeqCst);
        if second < due {
            return None;
        }
        // Of several workers the first one tells it.
        let next = second.saturating_add(1);
        self.due
            .compare_exchange(due, next, Ordering::SeqCst, Ordering::SeqCst)
            .ok()?;
        Some(second)
    }
}

impl<R: Clock + Eprint + Files + AllocGlobal> Progress<'_, R> {
    /// Writes the line in place of the one before.
    fn show(&self, second: u64, turns: u64) -> io::Result<()> {
        let memory = match fs::read_to_string(self.rt, "/proc/self/status") {
            Ok(status) => megabytes_in(status.as_str()),
            Err(_) => None,
        };
        let nodes = self.nodes.load(Ordering::SeqCst);
        let waiting = self.waiting.load(Ordering::SeqCst);
        let line = line_of(self.rt.alloc(), second, memory, turns, (nodes, waiting))?;
        eprint!(self.rt; "\r\x1b[K{line}")
    }

    /// Takes the line away, where there is one.
    pub fn clear(&self) {
        if self.due.load(Ordering::SeqCst) > PATIENCE {
            self.due.store(PATIENCE, Ordering::SeqCst);
            let _ = eprint!(self.rt; "\r\x1b[K");
        }
    }
}

impl<R: Clock + Eprint + Files + AllocGlobal> Gate for Progress<'_, R> {
    fn before(&self, _seat: u32) {}

    fn after(&self, _seat: u32) {
        let Some(start) = self.start else {
            return;
        };
        let turns = self.turns.fetch_add(1, Ordering::SeqCst).wrapping_add(1);
        if turns % LOOK == 0
            && let Some(second) = self.due_second(start)
        {
            // Where standard error fails, only the words are lost.
            let _ = self.show(second, turns);
        }
    }

    fn told(&self, nodes: usize, waiting: usize) {
        if self.start.is_some() {
            self.nodes.store(nodes as u64, Ordering::SeqCst);
            self.waiting.store(waiting as u64, Ordering::SeqCst);
        }
    }
}
