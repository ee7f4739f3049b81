//! The shared book.

ghost use Rattle.std.specs.Prelude.{List, ◌∷◌, ◌≡◌, ◌+◌, ◌<◌, ◌≤◌, length, ℕ, false, [], Some, IfOk, OnOk, OnErr, IfErr};
ghost use Rattle.std.specs.List.{AllByRecursion};
ghost use Rattle.fact_table.specs.Exchange.{IsWorked, tickets_of};
ghost use Rattle.fact_table.specs.Named.{table_of};
ghost use Rattle.fact_table.specs.Seats.{AreOutTo, Claims, Ends, Exchanges, IsOutTo, Looks};
ghost use Rattle.book_rules.specs.Counts.{seat_of};
ghost use Rattle.book_rules.specs.Machine.{Out};
ghost use Rattle.book_rules.specs.declared.event.Event.TheVariants.{Post, GiveBack};
ghost use Rattle.turn_table.specs.Events.{StartsWith, AllBelow, events_of, events_under};
ghost use Rattle.turn_table.specs.Shown.{IsOwn, first_seat, seat_split, new_seat, seats_joined, seats_known};

use crate::door::Door;
use crate::exchange::{Exchanged, Last, exchange_on, look_ahead, post_one};
use crate::facts::{Facts, Seat};
use book_rules::{outs_stay, outs_stay_beside};
use chip_analysis::Chip;
use no_memory::Memory;
use round_core::{Book, Claimed, Done, Spent, Ticket};
use std::alloc::Global;
use std::sync::Wait;
use turn_table::TurnTable;

/// A book that the workers of several threads share, each at a seat of its own.
#[derive(Drop)]
pub struct FactTable<C: Chip> {
    turns: TurnTable<Facts<C>>,
    door: Door,
}

impl<C: Chip> FactTable<C> {
    /// Lays the book down, and gives the first seat, which may give the numbers below `seats`. At `Memory` the book is
    /// dropped.
    pub fn new(alloc: Global, book: Book<C>, seats: u32) -> Result<(Self, Seat<C>), Memory>
        requires some_seat { 0 < seats }
        requires empty { book.journal ≡ [] }
        ensures seat { IfOk result (λ t. t.1 ≡ first_seat (table_of t.0) book.base seats) }
        ensures own { IfOk result (λ t. IsOwn seat_of t.1) }
    {
        let book = Box::new(alloc, book)?;
        let (turns, seat) = TurnTable::new(alloc, Facts { book }, seats)?;
        let door = Door::new();
        seat.number();
        Ok((FactTable { turns, door }, seat))
    }

    /// Claims a unit for the seat. A refusal adds nothing.
    pub fn claim<R: Wait>(&self, rt: &R, chip: &C, seat: &mut Seat<C>) -> Result<Claimed<C>, Memory>
        requires table { seat.old.table ≡ table_of self.now }
        requires idle { seat.old.holds ≡ false }
        requires chip { Some (C.base chip.now) ≡ seat.old.base }
        ensures answer { IfOk result (λ claimed. Claims C.analysis seat.old claimed seat.new) }
        ensures refused { OnErr result (Looks seat.old seat.new) }
        ensures own { IsOwn seat_of seat.new }
    {
        let mut turn = self.turns.turn(rt, seat);
        let book = &mut *turn.value.book;
        let claimed = book.claim(chip, seat.number());
        self.turns.pass(seat, turn);
        seat.number();
        claimed
    }

    /// Posts the work of a ticket that is out to the seat. A refusal adds nothing, and hands the work back.
    pub fn post<R: Wait>(
        &self,
        rt: &R,
        chip: &C,
        seat: &mut Seat<C>,
        done: Done<C>,
    ) -> Result<(), (Memory, Done<C>)>
        requires table { seat.old.table ≡ table_of self.now }
        requires idle { seat.old.holds ≡ false }
        requires chip { Some (C.base chip.now) ≡ seat.old.base }
        requires ticket { IsOutTo C.analysis seat.old done.ticket }
        requires work { done.work ≡ (C.analysis (C.base chip.now)).work done.ticket.unit done.ticket.at done.ticket.exit }
        ensures posted { OnOk result (Ends C.analysis seat.old done.ticket (Post done.ticket.seat done.ticket.unit) seat.new) }
        ensures refused { OnErr result (Looks seat.old seat.new) }
        ensures still_out { OnErr result (IsOutTo C.analysis seat.new done.ticket) }
        ensures handed_back { IfErr result (λ refused. refused.1 ≡ done) }
        ensures own { IsOwn seat_of seat.new }
    {
        outs_stay::<C>();
        // What the seat's own events are, before the turn and in it, says that the ticket is out still.
        seat.number();
        let mut turn = self.turns.turn(rt, seat);
        let book = &mut *turn.value.book;
        book.journal();
        let (posted, spent) = post_one(book, chip, done);
        self.turns.pass(seat, turn);
        // Others wait no longer while it is freed.
        drop(spent);
        seat.number();
        posted
    }

    /// Posts works whose tickets are out to the seat, in their order, and then claims up to `want` units for it, all in one turn. It
    /// claims a second or later unit only where at least `share` units can be claimed. Where memory runs out at a post, that work
    /// and those behind it are handed back, and nothing is claimed.
    pub fn exchange<R: Wait>(
        &self,
        rt: &R,
        alloc: Global,
        chip: &C,
        seat: &mut Seat<C>,
        done: Vec<Done<C>>,
        want: u32,
        share: u32,
    ) -> Exchanged<C>
        requires table { seat.old.table ≡ table_of self.now }
        requires idle { seat.old.holds ≡ false }
        requires chip { Some (C.base chip.now) ≡ seat.old.base }
        requires some { 1 ≤ want }
        requires few { length done.items + want ≤ 8 }
        requires tickets { AreOutTo C.analysis seat.old (tickets_of done.items) }
        requires works { AllByRecursion (IsWorked (C.analysis (C.base chip.now))) done.items }
        ensures exchanges { Exchanges C.analysis seat.old done.items want share result seat.new }
        ensures own { IsOwn seat_of seat.new }
    {
        outs_stay::<C>();
        seat.number();
        let Ok(tickets) = Vec::with_capacity(alloc, want as usize) else {
            return Exchanged {
                unposted: done,
                tickets: Vec::new(alloc),
                last: Last::Memory,
                left: true,
            };
        };
        // Others wait no longer while states are compared and joined, and memory is taken.
        let ahead = look_ahead(alloc, chip, done.as_slice());
        let next = Spent::with_room(alloc);
        let inside = self.door.enter();
        let mut turn = self.turns.turn(rt, seat);
        let book = &mut *turn.value.book;
        book.journal();
        let number = seat.number();
        let exchanged = exchange_on(book, chip, number, done, ahead, tickets, want, share);
        let spent = book.exchange_spent(next);
        self.turns.pass(seat, turn);
        drop(inside);
        // Others wait no longer while it is freed.
        drop(spent);
        seat.number();
        exchanged
    }

    /// Gives the unit of a ticket back that is out to the seat. Its other tickets are still out.
    pub fn give_back<R: Wait>(&self, rt: &R, seat: &mut Seat<C>, ticket: Ticket<C>)
        requires table { seat.old.table ≡ table_of self.now }
        requires idle { seat.old.holds ≡ false }
        requires ticket { IsOutTo C.analysis seat.old ticket }
        ensures given_back { Ends C.analysis seat.old ticket (GiveBack ticket.seat ticket.unit) seat.new }
        ensures others_out { (others : List (Out C.Abs)) → AreOutTo C.analysis seat.old (ticket ∷ others)
            → AreOutTo C.analysis seat.new others }
        ensures own { IsOwn seat_of seat.new }
    {
        outs_stay::<C>();
        outs_stay_beside::<C>();
        seat.number();
        let mut turn = self.turns.turn(rt, seat);
        let book = &mut *turn.value.book;
        book.journal();
        book.give_back(ticket);
        self.turns.pass(seat, turn);
        seat.number();
    }

    /// Gives the seat's greatest number to a new seat, which has seen as much.
    pub fn split(&self, seat: &mut Seat<C>) -> Seat<C>
        requires table { seat.old.table ≡ table_of self.now }
        requires room { 0 < seat.old.room }
        ensures seat { seat.new ≡ seat_split seat.old }
        ensures new { result ≡ new_seat seat.old }
        ensures own { IsOwn seat_of seat.new × IsOwn seat_of result }
    {
        let new = self.turns.split(seat);
        seat.number();
        new.number();
        new
    }

    /// Takes in another seat, which ends. The seat has then seen the longer of both journals, which begins with both.
    pub fn join(&self, seat: &mut Seat<C>, other: Seat<C>)
        requires table { (seat.old.table ≡ table_of self.now) × (other.table ≡ table_of self.now) }
        requires idle { other.holds ≡ false }
        ensures seat { seat.new ≡ seats_joined seat.old other }
        ensures begins { StartsWith seat.new.seen seat.old.seen × StartsWith seat.new.seen other.seen }
        ensures own { IsOwn seat_of seat.new }
    {
        self.turns.join(seat, other);
        seat.number();
    }

    /// Takes the table apart, once every seat stands in this one. The book's journal is what the seat has seen, and each
    /// number has the events in it that the seat knows of it.
    pub fn close(self, seat: Seat<C>) -> Book<C>
        requires table { seat.table ≡ table_of self }
        requires idle { seat.holds ≡ false }
        requires all { seat.stands ≡ seat.made }
        ensures journal { result.journal ≡ seat.seen }
        ensures below { AllBelow seat_of seat.seats result.journal }
        ensures base { Some result.base ≡ seat.base }
        ensures events { (n : ℕ) → events_of seat_of n result.journal ≡ events_under n (seats_known seat) }
    {
        let FactTable { turns, door: _ } = self;
        let Facts { book } = turns.close(seat);
        Box::into_inner(book)
    }
}
