//! The book under the lock.

use book_rules::Event;
use chip_analysis::Chip;
use round_core::Book;
use turn_table::Journaled;

/// The book that the workers share, behind a pointer: a turn moves no more than that.
#[derive(Drop)]
pub struct Facts<C: Chip> {
    pub(crate) book: Box<Book<C>>,
}

impl<C: Chip> Journaled for Facts<C> {
    ghost use Rattle.book_rules.specs.Counts.{seat_of};

    type Event = Event;

    type Base = C::Base;

    ghost history = { λ facts. facts.book.value.journal };

    ghost base = { λ facts. facts.book.value.base };

    ghost seat_of = { seat_of };
}

/// A seat at the book.
pub type Seat<C> = turn_table::Seat<Facts<C>>;
