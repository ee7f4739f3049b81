//! What a report says of every run.

ghost use Rattle.std.specs.Prelude.{◌≡◌, true, false, ℕ, List};
ghost use Rattle.call_context.specs.declared.node.Node.{Node};
ghost use Rattle.call_context.specs.declared.node.Unit.{Unit as WorkUnit};
ghost use Rattle.chip_analysis.specs.declared.chip.Work.{Work};
ghost use Rattle.closed_book.specs.ClosedBook.{IsClosedBook};
ghost use Rattle.report_bytes.specs.Report.{are_closed, closed_report, last_works, report_of_journal};
ghost use Rattle.report_bytes.specs.Stacks.{HasOneStack};
ghost use Rattle.report_text.specs.Promise.{BoundsStack, CoversEveryRun, ShowsOpenSites};
ghost use Rattle.book_rules.specs.Machine.{replay, IsFinished, IsLegalJournal};
ghost use Rattle.book_rules.specs.declared.event.Event.{Event as AnEvent};

use chip_analysis::OrderlyChip;
use chip_law::LawfulChip;
use closed_book::{closed_book_is_its_table, opens_break_limits, tables_have_no_open};
use closing_law::{closed_books_cover_runs, works_of_closed_tables_cover_runs};
use report_bytes::{closed_books_are_told, closed_reports_tell_stacks, reports_show_works};

/// The report of a finished book without opens covers every run of the chip.
pub fn closed_reports_cover_runs<C: LawfulChip>()
    ensures { (base : C.Base) (text_of : ℕ → List ℕ → List ℕ) (journal : List AnEvent) → C.program base
        → IsLegalJournal (C.analysis base) journal → IsFinished (replay (C.analysis base) journal)
        → are_closed (last_works (C.analysis base) journal) ≡ true
        → CoversEveryRun (C.machine base) text_of (report_of_journal text_of (C.analysis base) journal) }
{
    closed_books_cover_runs::<C>();
    reports_show_works::<C>();
}

/// The report of a closed table's works covers every run of the chip.
pub fn closed_works_cover_runs<C: LawfulChip>()
    ensures { (base : C.Base) (text_of : ℕ → List ℕ → List ℕ) (nodes : List (Node × C.Abs)) (works : List (WorkUnit × Work C.Abs))
        → C.program base → IsClosedBook (C.analysis base) nodes works
        → CoversEveryRun (C.machine base) text_of (closed_report text_of works) }
{
    works_of_closed_tables_cover_runs::<C>();
    tables_have_no_open::<C>();
    reports_show_works::<C>();
}

/// The `T` line of the report of a closed table's works bounds the stack of every run of the chip, whose stacks grow one way.
pub fn closed_works_bound_stacks<C: LawfulChip>()
    ensures { (base : C.Base) (text_of : ℕ → List ℕ → List ℕ) (nodes : List (Node × C.Abs)) (works : List (WorkUnit × Work C.Abs))
        → C.program base → HasOneStack (C.analysis base) → IsClosedBook (C.analysis base) nodes works
        → BoundsStack (C.machine base) (closed_report text_of works) }
{
    works_of_closed_tables_cover_runs::<C>();
    tables_have_no_open::<C>();
    closed_reports_tell_stacks::<C>();
}

/// So does that of the report of a finished book without opens.
pub fn closed_reports_bound_stacks<C: LawfulChip>()
    ensures { (base : C.Base) (text_of : ℕ → List ℕ → List ℕ) (journal : List AnEvent)
        → C.program base → HasOneStack (C.analysis base)
        → IsLegalJournal (C.analysis base) journal → IsFinished (replay (C.analysis base) journal)
        → are_closed (last_works (C.analysis base) journal) ≡ true
        → BoundsStack (C.machine base) (report_of_journal text_of (C.analysis base) journal) }
{
    closed_books_are_told::<C>();
    closed_book_is_its_table::<C>();
    closed_works_bound_stacks::<C>();
}

/// The report of a finished book with opens shows each of them, at a location of the book where by its state a stated limit
/// is broken.
pub fn open_reports_show_sites<C: OrderlyChip>()
    ensures { (base : C.Base) (text_of : ℕ → List ℕ → List ℕ) (journal : List AnEvent) → C.program base
        → IsLegalJournal (C.analysis base) journal → IsFinished (replay (C.analysis base) journal)
        → are_closed (last_works (C.analysis base) journal) ≡ false
        → ShowsOpenSites (C.analysis base) journal (report_of_journal text_of (C.analysis base) journal) }
{
    opens_break_limits::<C>();
    reports_show_works::<C>();
}
