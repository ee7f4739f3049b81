//! What a report shows of works and of tables, and when two are one.

ghost use Rattle.std.specs.Prelude.{◌≡◌, true, Bool, ℕ, List, IsPermutation};
ghost use Rattle.std.specs.Map.{values_of};
ghost use Rattle.call_context.specs.declared.node.Node.{Node};
ghost use Rattle.call_context.specs.declared.node.Unit.{Unit as WorkUnit};
ghost use Rattle.chip_analysis.specs.declared.chip.Work.{Work};
ghost use Rattle.closed_book.specs.ClosedBook.{HaveSame, IsClosedBook};
ghost use Rattle.report_bytes.specs.Report.{closed_report, items_of, report_of, report_of_journal};
ghost use Rattle.report_bytes.specs.Shows.{ShowsTable, ShowsWorks};
ghost use Rattle.report_bytes.specs.StackLines.{TellsStacks};
ghost use Rattle.report_bytes.specs.Stacks.{GrowsOneWay, HasOneStack};
ghost use Rattle.book_rules.specs.Machine.{replay, IsFinished, IsLegalJournal};
ghost use Rattle.book_rules.specs.Table.{table_of};
ghost use Rattle.book_rules.specs.declared.event.Event.{Event as AnEvent};

use book_rules::{finished_book_is_its_table, live_works_are_of_units};
use chip_analysis::Chip;
use closed_book::tables_have_no_order;

/// The report of works, whoever made them, says whether some of them leaves a site open, and shows all their items and open
/// sites.
pub fn reports_show_works<C: Chip>()
    ensures { (text_of : ℕ → List ℕ → List ℕ) (works : List (Work C.Abs))
        → ShowsWorks text_of works (report_of text_of true works) }
{}

/// The report of a finished book has the line of each item of each work over its table.
pub fn reports_show_tables<C: Chip>()
    ensures { (base : C.Base) (text_of : ℕ → List ℕ → List ℕ) (journal : List AnEvent)
        → IsLegalJournal (C.analysis base) journal → IsFinished (replay (C.analysis base) journal)
        → ShowsTable text_of (C.analysis base) (table_of (replay (C.analysis base) journal).nodes)
        (report_of_journal text_of (C.analysis base) journal) }
{
    finished_book_is_its_table::<C>();
    live_works_are_of_units::<C>();
}

/// In whatever order works stand, whose stacks grow one way, they have the same report.
pub fn reports_have_no_order<C: Chip>()
    ensures { (text_of : ℕ → List ℕ → List ℕ) (finished : Bool) (works others : List (Work C.Abs))
        → HaveSame works others → GrowsOneWay (items_of works)
        → report_of text_of finished works ≡ report_of text_of finished others }
{}

/// Closed books of one table have the same report, in whatever order nodes and works stand, where the stacks of the chip
/// grow one way.
pub fn closed_reports_are_of_tables<C: Chip>()
    ensures { (base : C.Base) (text_of : ℕ → List ℕ → List ℕ) → HasOneStack (C.analysis base)
        → (nodes others : List (Node × C.Abs)) (works more : List (WorkUnit × Work C.Abs))
        → IsPermutation nodes others → IsClosedBook (C.analysis base) nodes works
        → IsClosedBook (C.analysis base) others more
        → closed_report text_of works ≡ closed_report text_of more }
{
    tables_have_no_order::<C>();
    reports_have_no_order::<C>();
}

/// The `T` line of the report of works, whose stacks grow one way, is that of its `S` lines.
pub fn reports_tell_stacks<C: Chip>()
    ensures { (text_of : ℕ → List ℕ → List ℕ) (works : List (Work C.Abs)) → GrowsOneWay (items_of works)
        → TellsStacks works (report_of text_of true works) }
{}

/// So is that of the report of a closed book, where the stacks of the chip grow one way.
pub fn closed_reports_tell_stacks<C: Chip>()
    ensures { (base : C.Base) (text_of : ℕ → List ℕ → List ℕ) (nodes : List (Node × C.Abs))
        (works : List (WorkUnit × Work C.Abs)) → HasOneStack (C.analysis base) → IsClosedBook (C.analysis base) nodes works
        → TellsStacks (values_of works) (closed_report text_of works) }
{
    reports_tell_stacks::<C>();
}
