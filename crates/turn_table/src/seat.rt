//! A seat at the table, and the turn that it takes.
ghost use Rattle.std.specs.Prelude.{◌≡◌};
ghost use Rattle.turn_table.specs.Shown.{IsOwn};

use crate::board::Place;
use crate::journaled::Journaled;
use std::marker::Model;

/// A seat of one table, which one thread uses at a time. Contracts see it as a `ShownSeat` of `specs/Shown.antt`.
#[derive(Drop)]
pub struct Seat<B: Journaled> {
    pub(crate) number: u32,
    pub(crate) room: u32,
    pub(crate) place: Place<B>,
}

impl<B: Journaled> Model for Seat<B> {
    ghost use Rattle.std.specs.Prelude.{◌≡◌};
    ghost use Rattle.turn_table.specs.Shown.{ShownSeat, shown, IsSized, IsSeat};

    ghost Value = { ShownSeat B.Event B.Base };

    ghost view = { λ s. shown s.place.table_id s.place.me.0 };

    ghost invariant = { λ s. IsSized s.place.table_id × IsSeat B.seat_of s.number s.room s.place.me };
}

impl<B: Journaled> Seat<B> {
    /// The number that each event of this seat has.
    pub fn number(&self) -> u32
        ensures number { result ≡ self.now.number }
        ensures own { IsOwn B.seat_of self.now }
    {
        self.number
    }

    /// How many seats it may still give, which is also the greatest number among them.
    pub fn room(&self) -> u32
        ensures { result ≡ self.now.room }
    {
        self.room
    }
}

/// The value, while it is a seat's turn. It has to be passed on: it isn't `Drop`, even where the value is.
pub struct Turn<B> {
    pub value: B,
}
