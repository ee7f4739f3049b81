//! The lock itself.
ghost use Rattle.std.specs.Prelude.{◌≡◌, ◌<◌, ℕ, false, true, [], ◌++◌, List, Some, IfOk};
ghost use Rattle.turn_table.specs.Events.{StartsWith, AllOf, AllBelow, events_of, events_under};
ghost use Rattle.turn_table.specs.Named.{name_of};
ghost use Rattle.turn_table.specs.Shown.{IsOwn, first_seat, turn_begun, turn_ended, seat_split, new_seat, seats_joined, seats_known};

use crate::bells::Bells;
use crate::board::{About, Knowledge, Turns};
use crate::journaled::Journaled;
use crate::seat::{Seat, Turn};
use crate::steps::{part, pass_turn, take_in, wait_turn};
use atomic_table::Table;
use no_memory::Memory;
use std::alloc::Global;
use std::snapshot::Snapshot;
use std::sync::Wait;

/// A value that threads use in turns, and the one history of all turns.
#[derive(Drop)]
pub struct TurnTable<B: Journaled> {
    board: Table<Option<B>, Knowledge<B>, About<B>, Turns<B>, Global>,
    bells: Bells,
}

impl<B: Journaled> TurnTable<B> {
    /// Lays the value down, and gives the first seat, which may give the numbers below `seats`. At `Memory` the value
    /// is dropped.
    pub fn new(alloc: Global, value: B, seats: u32) -> Result<(TurnTable<B>, Seat<B>), Memory>
    where
        B: Drop,
        requires some_seat { 0 < seats }
        requires empty { B.history value ≡ [] }
        ensures { IfOk result (λ t. t.1 ≡ first_seat (name_of t.0) (B.base value) seats) }
    {
        let about = About {
            first: Snapshot::of(&value),
            seats,
        };
        let mut slots = Vec::new(alloc);
        slots.push(Some(value))?;
        let Ok((board, place)) = Table::new(alloc, &[0, 0], slots, &about) else {
            return Err(Memory);
        };
        let seat = Seat {
            number: 0,
            room: seats - 1,
            place,
        };
        let bells = Bells::new();
        Ok((TurnTable { board, bells }, seat))
    }

    /// Waits for the seat's turn, and gives the value. Its history then begins with all that the seat has seen, and of
    /// the seat's events it has those that the seat made and no others.
    pub fn turn<R: Wait>(&self, rt: &R, seat: &mut Seat<B>) -> Turn<B>
        requires table { seat.old.table ≡ name_of self.now }
        requires idle { seat.old.holds ≡ false }
        ensures seat { seat.new ≡ turn_begun seat.old (B.history result.value) }
        ensures begins { StartsWith (B.history result.value) seat.old.seen }
        ensures base { Some (B.base result.value) ≡ seat.old.base }
        ensures own { IsOwn B.seat_of seat.new }
    {
        Turn {
            value: wait_turn(rt, &self.board.shared, &self.bells, &mut seat.place),
        }
    }

    /// Gives the value back and ends the turn, which has added any number of events of this seat.
    pub fn pass(&self, seat: &mut Seat<B>, turn: Turn<B>)
        requires table { seat.old.table ≡ name_of self.now }
        requires turn { seat.old.holds ≡ true }
        requires adds { (added : List B.Event) × (B.history turn.value ≡ seat.old.seen ++ added) × AllOf B.seat_of seat.old.number added }
        requires base { Some (B.base turn.value) ≡ seat.old.base }
        ensures seat { seat.new ≡ turn_ended seat.old (B.history turn.value) }
        ensures own { IsOwn B.seat_of seat.new }
    {
        let Turn { value } = turn;
        pass_turn(&self.board.shared, &self.bells, &mut seat.place, value);
    }

    /// Gives the seat's greatest number to a new seat, which has seen as much.
    pub fn split(&self, seat: &mut Seat<B>) -> Seat<B>
        requires table { seat.old.table ≡ name_of self.now }
        requires room { 0 < seat.old.room }
        ensures seat { seat.new ≡ seat_split seat.old }
        ensures new { result ≡ new_seat seat.old }
        ensures own { IsOwn B.seat_of result }
    {
        let number = seat.room;
        let place = part(&self.board.shared, &mut seat.place);
        seat.room -= 1;
        Seat {
            number,
            room: 0,
            place,
        }
    }

    /// Takes in another seat, which ends. The seat has then seen the longer of both histories, which begins with both.
    /// Numbers that the other could still give are given up.
    pub fn join(&self, seat: &mut Seat<B>, other: Seat<B>)
        requires table { (seat.old.table ≡ name_of self.now) × (other.table ≡ name_of self.now) }
        requires idle { other.holds ≡ false }
        ensures seat { seat.new ≡ seats_joined seat.old other }
        ensures begins { StartsWith seat.new.seen seat.old.seen × StartsWith seat.new.seen other.seen }
        ensures own { IsOwn B.seat_of seat.new }
    {
        let Seat {
            number: _,
            room: _,
            place,
        } = other;
        take_in(&self.board.shared, &mut seat.place, place);
    }

    /// Takes the table apart, once every seat stands in this one. The value's history is the whole journal. In it each
    /// number has the events that the seat knows of it, from itself or from a seat that it took in, and others have none.
    pub fn close(self, seat: Seat<B>) -> B
        requires table { seat.table ≡ name_of self }
        requires idle { seat.holds ≡ false }
        requires all { seat.stands ≡ seat.made }
        ensures history { B.history result ≡ seat.seen }
        ensures below { AllBelow B.seat_of seat.seats (B.history result) }
        ensures base { Some (B.base result) ≡ seat.base }
        ensures events { (n : ℕ) → events_of B.seat_of n (B.history result) ≡ events_under n (seats_known seat) }
    {
        let Seat {
            number: _,
            room: _,
            place,
        } = seat;
        let TurnTable { board, bells: _ } = self;
        let mut closed = board.close_with(place);
        let slot = closed.take(0);
        closed.free();
        slot.unwrap()
    }
}
