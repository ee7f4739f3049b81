//! Which finished books have closed reports.

ghost use Rattle.std.specs.Prelude.{◌≡◌, ◌↔◌, true, List};
ghost use Rattle.report_bytes.specs.Report.{are_closed, last_works};
ghost use Rattle.book_rules.specs.Machine.{replay, IsClosed, IsFinished, IsLegalJournal};
ghost use Rattle.book_rules.specs.declared.event.Event.{Event as AnEvent};

use book_rules::{live_pairs_are_units, live_works_are_of_units};
use chip_analysis::Chip;

/// The report of a finished book says that it is closed exactly where the book is.
pub fn closed_books_are_told<C: Chip>()
    ensures { (base : C.Base) (journal : List AnEvent)
        → IsLegalJournal (C.analysis base) journal → IsFinished (replay (C.analysis base) journal)
        → (are_closed (last_works (C.analysis base) journal) ≡ true) ↔ IsClosed (replay (C.analysis base) journal) }
{
    live_works_are_of_units::<C>();
    live_pairs_are_units::<C>();
}
