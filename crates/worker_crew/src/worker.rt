//! What one worker does.

ghost use Rattle.std.specs.Prelude.{◌≡◌, ◌<◌, ◌≤◌, ◌++◌, ◌∷◌, [], length, false, not, true, IfErr, IfOk, IsTrue, MatchOption, OnErr, vec_len, vec_capacity};
ghost use Rattle.std.specs.List.{AllByRecursion};
ghost use Rattle.fact_table.specs.Exchange.{IsWorked, tickets_of};
ghost use Rattle.fact_table.specs.Seats.{AreOutTo};
ghost use Rattle.fact_table.specs.Named.{table_of};
ghost use Rattle.worker_crew.specs.Turns.{GoesOn, IsReady, Serves, Works, units_of};

use crate::calls::Calls;
use chip_analysis::Chip;
use fact_table::{Exchanged, FactTable, Last, Seat};
use no_memory::Memory;
use round_core::{Done, Ticket};
use std::alloc::Global;
use std::sync::Wait;
use worker_rounds::Gate;

/// For how many units a worker asks in one turn. Who holds more of them works on inputs that rise meanwhile.
const WANT: u32 = 1;

/// How many units have to be claimable for a worker to get a second one in a turn.
const SHARE: u32 = 1;

/// For how many units a worker asks in one turn. Proofs know no more of it, so that the number is free.
fn wanted() -> u32
    ensures some { 1 ≤ result }
    ensures few { result ≤ 4 }
{
    WANT
}

/// Puts a ticket before all others, for which there is room.
fn put_first<C: Chip>(tickets: &mut Vec<Ticket<C>>, ticket: Ticket<C>)
    requires { vec_len tickets.old < vec_capacity tickets.old }
    ensures { tickets.new.items ≡ ticket ∷ tickets.old.items }
{
    match tickets.insert(0, ticket) {
        Ok(()) => {}
        Err(_) => unreachable!(),
    }
}

/// Works on the unit of a ticket. Where memory runs out the ticket comes back.
fn work_one<C: Chip, G: Gate>(
    alloc: Global,
    chip: &C,
    gate: &G,
    seat: u32,
    ticket: Ticket<C>,
) -> Result<Done<C>, Ticket<C>>
    ensures worked { IfOk result (IsWorked (C.analysis (C.base chip.now))) }
    ensures ticket { IfOk result (λ done. done.ticket ≡ ticket) }
    ensures handed_back { IfErr result (λ back. back ≡ ticket) }
{
    gate.before(seat);
    match chip.work(alloc, ticket.unit(), ticket.at(), ticket.exit()) {
        Ok(work) => Ok(Done { ticket, work }),
        Err(Memory) => Err(ticket),
    }
}

/// Works on the units of tickets, in their order. Where memory runs out the tickets that are left come back.
fn work_on<C: Chip, G: Gate>(
    alloc: Global,
    chip: &C,
    gate: &G,
    seat: u32,
    tickets: Vec<Ticket<C>>,
) -> (Vec<Done<C>>, Vec<Ticket<C>>)
    ensures whole { tickets.items ≡ tickets_of result.0.items ++ result.1.items }
    ensures works { AllByRecursion (IsWorked (C.analysis (C.base chip.now))) result.0.items }
{
    let mut left = tickets;
    let Ok(mut done) = Vec::with_capacity(alloc, left.len()) else {
        return (Vec::new(alloc), left);
    };
    while !left.is_empty() {
        let first = left.remove(0);
        match work_one(alloc, chip, gate, seat, first) {
            Ok(one) => done.push_reserved(one),
            Err(ticket) => {
                put_first(&mut left, ticket);
                return (done, left);
            }
        }
    }
    (done, left)
}

/// The first of the tickets of works and of further ones.
fn next_ticket<C: Chip>(done: &mut Vec<Done<C>>, tickets: &mut Vec<Ticket<C>>) -> Option<Ticket<C>>
    ensures { MatchOption result (tickets_of done.old.items ++ tickets.old.items ≡ [])
        (λ ticket. tickets_of done.old.items ++ tickets.old.items
        ≡ ticket ∷ (tickets_of done.new.items ++ tickets.new.items)) }
{
    if !done.is_empty() {
        let Done { ticket, work: _ } = done.remove(0);
        return Some(ticket);
    }
    if tickets.is_empty() {
        return None;
    }
    Some(tickets.remove(0))
}

/// Gives the units of works and of tickets back.
fn give_back_all<R: Wait, C: Chip>(
    rt: &R,
    table: &FactTable<C>,
    seat: &mut Seat<C>,
    done: Vec<Done<C>>,
    tickets: Vec<Ticket<C>>,
)
    requires ready { (seat.old.table ≡ table_of table.now) × (seat.old.holds ≡ false) }
    requires tickets { AreOutTo C.analysis seat.old (tickets_of done.items ++ tickets.items) }
    ensures { Serves (units_of (tickets_of done.items ++ tickets.items)) [] seat.old seat.new }
{
    let mut done = done;
    let mut tickets = tickets;
    while let Some(ticket) = next_ticket(&mut done, &mut tickets) {
        table.give_back(rt, seat, ticket);
    }
}

/// Works on the units of tickets. Where memory runs out all of them are given back.
fn work_all<R: Wait, C: Chip, G: Gate>(
    rt: &R,
    alloc: Global,
    table: &FactTable<C>,
    chip: &C,
    gate: &G,
    seat: &mut Seat<C>,
    tickets: Vec<Ticket<C>>,
) -> Result<Vec<Done<C>>, Memory>
    requires ready { (seat.old.table ≡ table_of table.now) × (seat.old.holds ≡ false) }
    requires tickets { AreOutTo C.analysis seat.old tickets.items }
    ensures seat { IfOk result (λ done. seat.new ≡ seat.old) }
    ensures done { IfOk result (λ done. tickets_of done.items ≡ tickets.items) }
    ensures works { IfOk result
        (λ done. AllByRecursion (IsWorked (C.analysis (C.base chip.now))) done.items) }
    ensures given_back { OnErr result (Serves (units_of tickets.items) [] seat.old seat.new) }
{
    let (done, left) = work_on(alloc, chip, gate, seat.number(), tickets);
    if left.is_empty() {
        return Ok(done);
    }
    give_back_all(rt, table, seat, done, left);
    Err(Memory)
}

/// Tells of the works that were posted.
fn tell_posts<G: Gate>(gate: &G, seat: u32, posts: usize) {
    for _ in 0..posts {
        gate.after(seat);
    }
}

/// Whether memory ran out.
fn ran_out(last: Last) -> bool
    ensures { IsTrue (not result) → last ≡ Last.Memory → ⊥ }
{
    matches!(last, Last::Memory)
}

/// Whether the book is finished.
fn is_finished(last: Last) -> bool
    ensures { IsTrue result → last ≡ Last.Finished }
{
    matches!(last, Last::Finished)
}

/// Works on units, posts their works and claims the next ones. It answers the tickets, why there are no more, and whether units may
/// be left for others.
fn go_on<R: Wait, C: Chip, G: Gate>(
    rt: &R,
    alloc: Global,
    table: &FactTable<C>,
    chip: &C,
    gate: &G,
    seat: &mut Seat<C>,
    tickets: Vec<Ticket<C>>,
) -> Result<(Vec<Ticket<C>>, Last, bool), Memory>
    requires ready { IsReady (table_of table.now) (C.base chip.now) seat.old }
    requires tickets { AreOutTo C.analysis seat.old tickets.items }
    requires few { length tickets.items ≤ 4 }
    ensures goes_on { IfOk result
        (λ next. GoesOn C.analysis tickets.items seat.old next.0.items seat.new) }
    ensures finished { IfOk result (λ next. next.1 ≡ Last.Finished → next.0.items ≡ []) }
    ensures ended { OnErr result (Serves (units_of tickets.items) [] seat.old seat.new) }
{
    let done = work_all(rt, alloc, table, chip, gate, seat, tickets)?;
    let works = done.len();
    let exchanged = table.exchange(rt, alloc, chip, seat, done, wanted(), SHARE);
    let Exchanged {
        unposted,
        tickets,
        last,
        left,
    } = exchanged;
    tell_posts(gate, seat.number(), works.saturating_sub(unposted.len()));
    if ran_out(last) {
        give_back_all(rt, table, seat, unposted, tickets);
        return Err(Memory);
    }
    Ok((tickets, last, left))
}

/// The same. Where units may be left, one worker that has none is called for them. A worker that has no unit and finds none looks
/// for a call, and behind that, where it is sleepy, sleeps until another one wakes it. True says that the book is finished.
fn turn<R: Wait, C: Chip, G: Gate>(
    rt: &R,
    alloc: Global,
    table: &FactTable<C>,
    chip: &C,
    gate: &G,
    calls: &Calls,
    seat: &mut Seat<C>,
    sleepy: &mut bool,
    tickets: Vec<Ticket<C>>,
) -> Result<(Vec<Ticket<C>>, bool), Memory>
    requires ready { IsReady (table_of table.now) (C.base chip.now) seat.old }
    requires tickets { AreOutTo C.analysis seat.old tickets.items }
    requires few { length tickets.items ≤ 4 }
    ensures goes_on { IfOk result
        (λ next. GoesOn C.analysis tickets.items seat.old next.0.items seat.new) }
    ensures finished { IfOk result (λ next. next.1 ≡ true → next.0.items ≡ []) }
    ensures ended { OnErr result (Serves (units_of tickets.items) [] seat.old seat.new) }
{
    // Announced before the claim, so that a unit that comes behind it ends the wait.
    let idle = tickets.is_empty();
    let watch = (idle && !*sleepy).then(|| calls.watch());
    let sleep = (idle && *sleepy).then(|| calls.announce());
    *sleepy = false;
    let (next, last, left) = go_on(rt, alloc, table, chip, gate, seat, tickets)?;
    if next.is_empty() && matches!(last, Last::Idle) {
        if let Some(watch) = watch {
            *sleepy = !watch.was_called();
        }
        if let Some(key) = sleep {
            key.wait(rt);
        }
    } else {
        // Who has units is not the one to be called.
        drop(watch);
        drop(sleep);
        if left {
            calls.call_one();
        }
    }
    Ok((next, is_finished(last)))
}

/// Takes turns until the book is finished or memory runs out. Who finds it finished calls all; who is out of memory calls
/// one, which looks for the units that are left.
pub(crate) fn work<R: Wait, C: Chip, G: Gate>(
    rt: &R,
    alloc: Global,
    table: &FactTable<C>,
    chip: &C,
    gate: &G,
    calls: &Calls,
    mut seat: Seat<C>,
) -> Seat<C>
    requires ready { IsReady (table_of table.now) (C.base chip.now) seat }
    ensures { Works seat result }
{
    let mut tickets = Vec::new(alloc);
    let mut sleepy = false;
    for _ in rt.forever() {
        match turn(
            rt,
            alloc,
            table,
            chip,
            gate,
            calls,
            &mut seat,
            &mut sleepy,
            tickets,
        ) {
            Ok((next, false)) => tickets = next,
            Ok((_, true)) => {
                calls.call_all();
                return seat;
            }
            Err(Memory) => {
                calls.call_one();
                return seat;
            }
        }
    }
    unreachable!()
}
