//! The table behind the lock, and what each step on it tells: the words are the tickets drawn and the turns passed,
//! and the slot has the value.
ghost use Rattle.std.specs.Prelude.{[], ◌∷◌};
ghost use Rattle.turn_table.specs.Rule.{Kept};
ghost use Rattle.turn_table.specs.Plays.{drew, looked, passed, caught_up};
ghost use Rattle.turn_table.specs.Views.{seated, spent, opening_seat, gives, given_seat, both_seats, on};

use crate::journaled::Journaled;
use crate::view::View;
use atomic_table::{Join, Play, Seat, Shared, Split, TableRule};
use std::marker::PhantomData;
use std::snapshot::Snapshot;

/// What is fixed when the table is made: the first value, which has the base, and the number of seats.
#[derive(Drop)]
pub struct About<B> {
    pub first: Snapshot<B>,
    pub seats: u32,
}

pub struct Turns<B> {
    of: PhantomData<B>,
}

pub(crate) type Knowledge<B> = View<<B as Journaled>::Event, <B as Journaled>::Base>;

pub(crate) type Board<B> = Shared<Option<B>, Knowledge<B>, About<B>, Turns<B>>;

pub(crate) type Place<B> = Seat<Option<B>, Knowledge<B>>;

impl<B: Journaled> TableRule<Option<B>, View<B::Event, B::Base>, About<B>> for Turns<B> {
    ghost holds = { λ about. Kept B.history B.seat_of B.base (B.base about.first.value) about.seats };

    ghost first = { λ about. seated (opening_seat (B.base about.first.value) about.seats) };
}

pub(crate) struct Draw<B> {
    of: PhantomData<B>,
}

impl<B: Journaled> Play<Option<B>, View<B::Event, B::Base>> for Draw<B> {
    ghost then = { λ _ m found n. drew m found n };
}

pub(crate) struct Look<B> {
    of: PhantomData<B>,
}

impl<B: Journaled> Play<Option<B>, View<B::Event, B::Base>> for Look<B> {
    ghost then = { λ _ m found n. looked B.history B.seat_of B.base m found n };
}

pub(crate) struct Pass<B> {
    of: PhantomData<B>,
}

impl<B: Journaled> Play<Option<B>, View<B::Event, B::Base>> for Pass<B> {
    ghost then = { λ _ m _ n. passed B.history m n };
}

pub(crate) struct CatchUp<B> {
    of: PhantomData<B>,
}

impl<B: Journaled> Play<Option<B>, View<B::Event, B::Base>> for CatchUp<B> {
    ghost then = { λ _ m _ n. caught_up B.seat_of m n };
}

pub(crate) struct Give;

impl<E, C> Split<View<E, C>> for Give {
    ghost left = { on gives };

    ghost right = { on given_seat };
}

pub(crate) struct TakeIn;

impl<E, C> Join<View<E, C>> for TakeIn {
    ghost both = { both_seats };

    ghost spent = { spent };
}
