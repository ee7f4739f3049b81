//! Closed books.

ghost use Rattle.std.specs.Prelude.{◌≡◌, ◌==◌, ◌↔◌, ◌||◌, not, length, IsTrue, IsOk, IfOk, IfErr};
ghost use Rattle.std.specs.List.{list_all};
ghost use Rattle.std.specs.Map.{values_of};
ghost use Rattle.closed_book.specs.ClosedBook.{IsClosedBook, NoneIsOpen};
ghost use Rattle.book_rules.specs.Kept.{is_live, live_pairs, nodes_of, works_of};
ghost use Rattle.book_rules.specs.Machine.{replay, IsClosed};

use crate::{closed_book_is_its_table, finished_books_are_their_units};
use book_rules::Event;
use call_context::{Node, Unit};
use chip_analysis::{Chip, OrderlyChip, Work};
use round_core::Book;
use std::marker::Model;
use std::snapshot::Snapshot;

/// A closed table of a chip, with each of its units' works once. Contracts see the chip's program with options, the
/// nodes with their states, and the works.
#[derive(Drop)]
pub struct ClosedBook<C: OrderlyChip> {
    /// Only clauses read it: a snapshot has no bytes.
    chip: Snapshot<C>,
    nodes: Vec<(Node, C::Abs)>,
    works: Vec<(Unit, Work<C::Abs>)>,
}

impl<C: OrderlyChip> Model for ClosedBook<C> {
    ghost use Rattle.closed_book.specs.ClosedBook.{Closed, IsClosedBook};

    ghost Value = { Closed C.Base C.Abs };

    ghost view = { λ b. record { base = C.base b.chip.value; nodes = b.nodes.items; works = b.works.items } };

    ghost invariant = { λ b. C.program (C.base b.chip.value)
        × IsClosedBook (C.analysis (C.base b.chip.value)) b.nodes.items b.works.items };
}

impl<C: OrderlyChip> ClosedBook<C> {
    /// The closed book of a table and its works.
    pub fn of_table(chip: &C, nodes: Vec<(Node, C::Abs)>, works: Vec<(Unit, Work<C::Abs>)>) -> Self
        requires { IsClosedBook (C.analysis (C.base chip.now)) nodes.items works.items }
        ensures { result ≡ record { base = C.base chip.now; nodes = nodes.items; works = works.items } }
    {
        chip.is_program();
        ClosedBook {
            chip: Snapshot::of(chip),
            nodes,
            works,
        }
    }

    /// The nodes of the table with their states.
    pub fn nodes(&self) -> &[(Node, C::Abs)]
        ensures { result.now ≡ self.now.nodes }
    {
        self.nodes.as_slice()
    }

    /// Each unit of the table with its work, once.
    pub fn works(&self) -> &[(Unit, Work<C::Abs>)]
        ensures { result.now ≡ self.now.works }
    {
        self.works.as_slice()
    }

    /// The table is closed, and the works are those of its units. So none of them leaves a site open.
    pub fn is_of_closed_table(&self)
        ensures program { C.program self.now.base }
        ensures closed { IsClosedBook (C.analysis self.now.base) self.now.nodes self.now.works }
        ensures no_open { NoneIsOpen (values_of self.now.works) }
    {
        let _nodes = &self.nodes;
    }
}

/// Whether no work of the book's units leaves a site open.
fn has_no_open<C: Chip>(book: &Book<C>) -> bool
    ensures { (let b = replay (C.analysis book.now.base) book.now.journal in
        result ≡ list_all (λ p. not (is_live b.done p.0) || (length p.1.opens == 0)) (works_of b)) }
{
    book.works().iter().all(|(unit, work)| !book.is_live(unit) || work.opens.as_slice().is_empty())
}

/// Whether a book is finished, and no work of its units leaves a site open.
fn is_closed<C: Chip>(book: &Book<C>) -> bool
    ensures { IsTrue result ↔ IsClosed (replay (C.analysis book.now.base) book.now.journal) }
{
    finished_books_are_their_units::<C>();
    let _journal = book.journal();
    book.finished() && has_no_open(book)
}

/// The closed book of a book that is finished, where no work of its units leaves a site open, and the book's journal. Its
/// works are those of the book's units: former returns are left out. It takes no memory. Any other book is handed back.
pub fn read_closed_with_journal<C: OrderlyChip>(
    book: Book<C>,
) -> Result<(ClosedBook<C>, Vec<Event>), Book<C>>
    requires { C.program book.base }
    ensures exact { IsOk result ↔ IsClosed (replay (C.analysis book.base) book.journal) }
    ensures closed { IfOk result (λ closed. (let b = replay (C.analysis book.base) book.journal in
        closed.0 ≡ record { base = book.base; nodes = nodes_of b; works = live_pairs b })) }
    ensures journal { IfOk result (λ closed. closed.1.items ≡ book.journal) }
    ensures handed_back { IfErr result (λ same. same ≡ book) }
{
    closed_book_is_its_table::<C>();
    let _journal = book.journal();
    if !is_closed(&book) {
        return Err(book);
    }
    let (chip, nodes, works, journal) = book.into_live();
    Ok((ClosedBook { chip, nodes, works }, journal))
}

/// The closed book of such a book alone.
pub fn read_closed<C: OrderlyChip>(book: Book<C>) -> Result<ClosedBook<C>, Book<C>>
    requires { C.program book.base }
    ensures exact { IsOk result ↔ IsClosed (replay (C.analysis book.base) book.journal) }
    ensures closed { IfOk result (λ closed. (let b = replay (C.analysis book.base) book.journal in
        closed ≡ record { base = book.base; nodes = nodes_of b; works = live_pairs b })) }
    ensures handed_back { IfErr result (λ same. same ≡ book) }
{
    match read_closed_with_journal(book) {
        Ok((closed, _)) => Ok(closed),
        Err(book) => Err(book),
    }
}
