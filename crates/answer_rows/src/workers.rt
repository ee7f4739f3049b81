//! That workers work at once.

use holding_gate::HoldingGate;
use std::sync::Wait;
use std::thread::{Threads, available_parallelism};
use vsa_io::{MemSink, MemSource};
use vsa_top::{Status, vsa};

/// How many seats of so many workers have a thread: one for each processor, and at least two.
fn seats_of<R: Threads>(rt: &R, workers: u32) -> u32 {
    let processors = match available_parallelism(rt) {
        Ok(processors) => u32::try_from(processors.get()).unwrap_or(workers),
        Err(_) => 2,
    };
    workers.min(processors.max(2))
}

/// The number of workers that words ask for.
fn workers_of(words: &[String]) -> u32 {
    let mut is_next = false;
    for word in words {
        if is_next {
            return word.as_str().parse::<u32>().unwrap_or(1);
        }
        is_next = word.as_str() == "--workers";
    }
    1
}

/// Whether as many workers of a call as have a thread work at once, behind so many claims that come one behind the other, and tell
/// the gate all that they do.
pub fn work_at_once<R: Threads + Wait + AllocGlobal + Sync>(
    rt: &R,
    alone: u64,
    words: &[String],
    source: &mut MemSource,
    sink: &mut MemSink,
) -> bool {
    let gate = HoldingGate::new(alone, seats_of(rt, workers_of(words)));
    let outcome = vsa(rt, rt.alloc(), words, source, sink, &gate);
    outcome.status == Status::Done && gate.saw_all(outcome.journal.as_slice())
}
