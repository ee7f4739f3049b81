//! The workers' threads.

ghost use Rattle.std.specs.Prelude.{◌≡◌, ◌+◌, ◌<◌, ◌≤◌, ℕ, false, Some, IfOk};
ghost use Rattle.book_rules.specs.Counts.{seat_of};
ghost use Rattle.book_rules.specs.Machine.{replay, IsFinished, IsLegalJournal};
ghost use Rattle.std.specs.Thread.{IsSend, IsSync};
ghost use Rattle.turn_table.specs.Events.{AllBelow, events_of};
ghost use Rattle.fact_table.specs.Named.{table_of};
ghost use Rattle.worker_crew.specs.Turns.{AreAnswered, IsReady, StaysAnswered, TakesIn, Works};

use crate::calls::Calls;
use crate::worker::work;
use chip_analysis::Chip;
use fact_table::{FactTable, Seat};
use no_memory::Memory;
use round_core::Book;
use std::alloc::Global;
use std::sync::Wait;
use std::thread::{Threads, available_parallelism, join};
use worker_rounds::Gate;

/// How many threads work for so many workers: at most one for each processor, since turns are served in order and all would
/// wait for a thread that isn't running, but at least two.
fn threads_for<R: Threads>(rt: &R, workers: u32) -> u32
    requires { 0 < workers }
    ensures some { 0 < result }
    ensures few { result ≤ workers }
{
    let processors = match available_parallelism(rt) {
        Ok(processors) => u32::try_from(processors.get()).unwrap_or(workers),
        Err(_) => 2,
    };
    workers.min(processors.max(2))
}

/// Works at the seat, and then at so many more, one after the other: the seats of workers that have no thread.
fn work_through<R: Wait, C: Chip, G: Gate>(
    rt: &R,
    alloc: Global,
    table: &FactTable<C>,
    chip: &C,
    gate: &G,
    calls: &Calls,
    seat: Seat<C>,
    more: u32,
) -> Seat<C>
    requires ready { IsReady (table_of table.now) (C.base chip.now) seat }
    requires room { more ≤ seat.room }
    ensures takes_in { TakesIn seat result }
    ensures answered { StaysAnswered seat result }
{
    let mut seat = work(rt, alloc, table, chip, gate, calls, seat);
    for _ in 0..more {
        let other = table.split(&mut seat);
        let other = work(rt, alloc, table, chip, gate, calls, other);
        table.join(&mut seat, other);
    }
    seat
}

/// Works at the seat and at `more` others, and lets so many helpers work beside it, each in a thread of its own. Where a
/// thread can't be started, this one does its helper's work too. The others' seats are taken in.
#[cycle(crew)]
fn work_beside<R: Threads + Wait + Sync, C: Chip<Base: Send> + Send + Sync, G: Gate + Sync>(
    rt: &R,
    alloc: Global,
    table: &FactTable<C>,
    chip: &C,
    gate: &G,
    calls: &Calls,
    mut seat: Seat<C>,
    helpers: u32,
    more: u32,
) -> Seat<C>
    requires threads { IsSync R.row × IsSend C.row × IsSync C.row × IsSync G.row
        × IsSend C.Base.row × IsSend C.Abs.row }
    requires ready { IsReady (table_of table.now) (C.base chip.now) seat }
    requires room { helpers + more ≤ seat.room }
    ensures takes_in { TakesIn seat result }
    ensures answered { StaysAnswered seat result }
{
    if helpers == 0 {
        return work_through(rt, alloc, table, chip, gate, calls, seat, more);
    }
    let helper = table.split(&mut seat);
    let help = move || -> Seat<C>
        requires { IsReady (table_of table.now) (C.base chip.now) helper }
        ensures { Works helper result }
    { work(rt, alloc, table, chip, gate, calls, helper) };
    let go_on = move || -> Seat<C>
        requires threads { IsSync R.row × IsSend C.row × IsSync C.row × IsSync G.row
            × IsSend C.Base.row × IsSend C.Abs.row }
        requires ready { IsReady (table_of table.now) (C.base chip.now) seat }
        requires room { (0 < helpers) × (helpers + more ≤ seat.room + 1) }
        ensures takes_in { TakesIn seat result }
        ensures answered { StaysAnswered seat result }
    { work_beside(rt, alloc, table, chip, gate, calls, seat, helpers - 1, more) };
    let (helper, mut seat) = join(rt, help, go_on);
    table.join(&mut seat, helper);
    seat
}

/// Analyses the chip's program by 1 to 16 workers. A book that it gives is finished, also where some workers ran out of
/// memory and others did their work.
pub fn fixpoint<R: Threads + Wait + Sync, C: Chip<Base: Send> + Send + Sync, G: Gate + Sync>(
    rt: &R,
    alloc: Global,
    chip: &C,
    workers: u32,
    gate: &G,
) -> Result<Book<C>, Memory>
    requires some_worker { 0 < workers }
    requires few { workers ≤ 16 }
    ensures base { IfOk result (λ book. book.base ≡ C.base chip.now) }
    ensures legal { IfOk result (λ book. IsLegalJournal (C.analysis book.base) book.journal) }
    ensures finished { IfOk result (λ book. IsFinished (replay (C.analysis book.base) book.journal)) }
    ensures seats { IfOk result (λ book. AllBelow seat_of workers book.journal) }
    ensures answered { IfOk result (λ book. (seat : ℕ) → AreAnswered (events_of seat_of seat book.journal)) }
{
    let book = Book::open(alloc, chip)?;
    let (table, seat) = FactTable::new(alloc, book, workers)?;
    let calls = Calls::new();
    let threads = threads_for(rt, workers);
    let seat = work_beside(
        rt,
        alloc,
        &table,
        chip,
        gate,
        &calls,
        seat,
        threads - 1,
        workers - threads,
    );
    let book = table.close(seat);
    if !book.finished() {
        // Every worker that ends without that ran out of memory.
        drop(book);
        return Err(Memory);
    }
    // The journal of a book is legal by itself.
    book.journal();
    Ok(book)
}
