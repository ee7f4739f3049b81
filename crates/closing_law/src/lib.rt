//! The closing law: a closed table covers every run of its chip, and so does a finished book without opens.
#![tactic(auto)]

ghost use Rattle.std.specs.Prelude.{◌≡◌, Option, List};
ghost use Rattle.std.specs.Map.{values_of};
ghost use Rattle.call_context.specs.declared.node.Node.{Node};
ghost use Rattle.call_context.specs.declared.node.Unit.{Unit as WorkUnit};
ghost use Rattle.chip_analysis.specs.declared.chip.Work.{Work};
ghost use Rattle.chip_analysis.specs.Table.{IsClosedTable, IsFormedTable};
ghost use Rattle.closed_book.specs.ClosedBook.{IsClosedBook, NoneIsOpen, table_in};
ghost use Rattle.closing_law.specs.Covered.{CoversRuns, AreCovering};
ghost use Rattle.book_rules.specs.Kept.{live_works};
ghost use Rattle.book_rules.specs.Machine.{replay, IsFinished, IsLegalJournal};
ghost use Rattle.book_rules.specs.declared.event.Event.{Event};

use book_rules::live_works_are_of_units;
use chip_law::LawfulChip;
use closed_book::closed_book_is_its_table;
pub use closed_book::{ClosedBook, read_closed};

/// Over a closed table every run stands, at each state, under some location with some suspended states. So each item
/// that is met is among the items of the table's works, and no run leaves the model.
pub fn closed_tables_cover_runs<C: LawfulChip>()
    ensures { (base : C.Base) (table : Node → Option C.Abs) → C.program base → IsFormedTable (C.analysis base) table
        → IsClosedTable (C.analysis base) table
        → CoversRuns (C.machine base) (C.analysis base) (C.covers base) table }
{
    C::laws();
    C::order_laws();
}

/// The works of a closed book show whatever a run meets, and no run leaves the model.
pub fn works_of_closed_tables_cover_runs<C: LawfulChip>()
    ensures { (base : C.Base) (nodes : List (Node × C.Abs)) (works : List (WorkUnit × Work C.Abs)) → C.program base
        → IsClosedBook (C.analysis base) nodes works → AreCovering (C.machine base) (values_of works) }
{
    closed_tables_cover_runs::<C>();
}

/// The works of a finished book without opens show whatever a run meets, and no run leaves the model.
pub fn closed_books_cover_runs<C: LawfulChip>()
    ensures { (base : C.Base) (journal : List Event) → C.program base
        → IsLegalJournal (C.analysis base) journal → IsFinished (replay (C.analysis base) journal)
        → NoneIsOpen (live_works (replay (C.analysis base) journal))
        → AreCovering (C.machine base) (live_works (replay (C.analysis base) journal)) }
{
    closed_book_is_its_table::<C>();
    works_of_closed_tables_cover_runs::<C>();
    live_works_are_of_units::<C>();
}

/// Every run stands, at each state, under a location of the table of a closed book. Its works show whatever a run meets, and no
/// run leaves the model.
pub fn covers_runs<C: LawfulChip>(book: &ClosedBook<C>)
    ensures runs { CoversRuns (C.machine book.now.base) (C.analysis book.now.base) (C.covers book.now.base)
        (table_in book.now.nodes) }
    ensures works { AreCovering (C.machine book.now.base) (values_of book.now.works) }
{
    book.is_of_closed_table();
    closed_tables_cover_runs::<C>();
    works_of_closed_tables_cover_runs::<C>();
}
