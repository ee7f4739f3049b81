//! Closed books: a closed table of a chip with the works of its units, and the book that it is read from. All of it is said of the
//! analysis alone, whatever the chip does.
//!
//! - [`ClosedBook`] holds a closed table and each work of its units once (`specs/ClosedBook.antt`). It comes of a finished book
//!   without opens, in place ([`read_closed`]), or of a table that is known to be closed ([`ClosedBook::of_table`]).
//! - In whatever order a table's nodes stand, it is closed or not, and has the same works ([`tables_have_no_order`]).
//! - Each open of a finished book is where a stated limit is broken ([`opens_break_limits`]).
//! - How often nodes rise and units are claimed is bounded ([`books_are_bounded`]).
#![tactic(auto)]

mod closed;

ghost use Rattle.std.specs.Prelude.{◌≡◌, ℕ, Option, List, Contains, IsPermutation};
ghost use Rattle.std.specs.List.{IsDistinct};
ghost use Rattle.std.specs.Map.{keys_of, values_of};
ghost use Rattle.call_context.specs.declared.node.Node.{Node};
ghost use Rattle.call_context.specs.declared.node.Unit.{Unit as WorkUnit};
ghost use Rattle.chip_analysis.specs.declared.cause.Cause.{Cause};
ghost use Rattle.chip_analysis.specs.declared.chip.Work.{Work};
ghost use Rattle.chip_analysis.specs.Table.{IsClosedTable};
ghost use Rattle.closed_book.specs.BookFacts.{ArePairs, IsItsTable};
ghost use Rattle.closed_book.specs.Bounded.{AreBounded};
ghost use Rattle.closed_book.specs.Broken.{IsBroken};
ghost use Rattle.closed_book.specs.ClosedBook.{HaveSame, IsClosedBook, NoneIsOpen, table_in};
ghost use Rattle.book_rules.specs.Kept.{live_pairs, live_works, nodes_of};
ghost use Rattle.book_rules.specs.Machine.{BookState, replay, IsClosed, IsFinished, IsLegalJournal};
ghost use Rattle.book_rules.specs.Same.{same_node};
ghost use Rattle.book_rules.specs.Sound.{IsSound};
ghost use Rattle.book_rules.specs.declared.event.Event.{Event};

use book_rules::{
    claims_are_bounded, closed_book_has_closed_table, finished_book_is_its_table,
    live_pairs_are_units, rises_are_bounded, sound_books_are_their_tables, sound_books_stay,
    tests_tell_which_are_one,
};
use chip_analysis::{Chip, OrderlyChip};
pub use closed::{ClosedBook, read_closed, read_closed_with_journal};

/// What the laws of the book tell of a finished one: its pairs are its units with their last works, and its table is that of
/// its units.
fn finished_books_are_their_units<C: Chip>()
    ensures pairs { (base : C.Base) (journal : List Event) → IsLegalJournal (C.analysis base) journal
        → ArePairs (replay (C.analysis base) journal) }
    ensures table { (base : C.Base) (journal : List Event) → IsLegalJournal (C.analysis base) journal
        → IsFinished (replay (C.analysis base) journal)
        → IsItsTable (C.analysis base) (replay (C.analysis base) journal) }
{
    finished_book_is_its_table::<C>();
    live_pairs_are_units::<C>();
}

/// Each open of a finished book is at a location of the book, where by the location's state the stated limit that its cause
/// names is broken.
pub fn opens_break_limits<C: OrderlyChip>()
    ensures { (base : C.Base) (journal : List Event) (work : Work C.Abs) (pc : ℕ) (cause : Cause) → C.program base
        → IsLegalJournal (C.analysis base) journal → IsFinished (replay (C.analysis base) journal)
        → Contains (live_works (replay (C.analysis base) journal)) work → Contains work.opens (pc, cause)
        → IsBroken (C.analysis base) (replay (C.analysis base) journal).nodes pc cause }
{
    closed_book_has_closed_table::<C>();
    finished_books_are_their_units::<C>();
    C::order_laws();
}

/// The works of a closed book leave no site open.
pub fn tables_have_no_open<C: Chip>()
    ensures { (base : C.Base) (nodes : List (Node × C.Abs)) (works : List (WorkUnit × Work C.Abs))
        → IsClosedBook (C.analysis base) nodes works → NoneIsOpen (values_of works) }
{}

/// The nodes of a sound book that is finished and has no open, with the last works of its units, are a closed table with its works,
/// wherever the book began.
pub fn sound_books_are_closed<C: Chip>()
    ensures { (base : C.Base) (b : BookState C.Abs) → (let a = C.analysis base in
        IsSound a b → IsClosed b → IsClosedBook a (nodes_of b) (live_pairs b)) }
{
    live_pairs_are_units::<C>();
    sound_books_are_their_tables::<C>();
}

/// The nodes of a finished book without opens, with the last works of its units, are a closed table with its works.
pub fn closed_book_is_its_table<C: OrderlyChip>()
    ensures { (base : C.Base) (journal : List Event) → C.program base → (let a = C.analysis base in
        let b = replay a journal in
        IsLegalJournal a journal → IsClosed b → IsClosedBook a (nodes_of b) (live_pairs b)) }
{
    C::order_laws();
    sound_books_stay::<C>();
    sound_books_are_closed::<C>();
}

/// In whatever order the nodes of a table stand, it holds the same. If it is closed it stays so, and it has the same units
/// with the same works.
pub fn tables_have_no_order<C: Chip>()
    ensures table { (nodes others : List (Node × C.Abs)) (node : Node)
        → IsDistinct same_node (keys_of nodes) → IsPermutation nodes others
        → table_in nodes node ≡ table_in others node }
    ensures closed { (base : C.Base) (nodes others : List (Node × C.Abs))
        → IsDistinct same_node (keys_of nodes) → IsPermutation nodes others
        → IsClosedTable (C.analysis base) (table_in nodes)
        → IsClosedTable (C.analysis base) (table_in others) }
    ensures works { (base : C.Base) (nodes others : List (Node × C.Abs))
        (works more : List (WorkUnit × Work C.Abs))
        → IsPermutation nodes others → IsClosedBook (C.analysis base) nodes works
        → IsClosedBook (C.analysis base) others more → HaveSame works more }
{
    tests_tell_which_are_one();
}

/// Whatever events a book of the chip had: each node rose at most 64 times, and a unit was claimed at most 128 times more
/// often than it was given back.
pub fn books_are_bounded<C: OrderlyChip>()
    ensures { (base : C.Base) (journal : List Event) → C.program base → IsLegalJournal (C.analysis base) journal
        → AreBounded (C.analysis base) journal }
{
    rises_are_bounded::<C>();
    claims_are_bounded::<C>();
    C::order_laws();
}
