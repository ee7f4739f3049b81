//! Printing a report.

ghost use Rattle.std.specs.Prelude.{◌≡◌, OnOk, OnErr, IfErr, List, ℕ};
ghost use Rattle.closed_book.specs.ClosedBook.{table_in};
ghost use Rattle.report_bytes.specs.Report.{IsReport, closed_report};
ghost use Rattle.report_bytes.specs.Shows.{ShowsTable};
ghost use Rattle.report_text.specs.Promise.{CoversEveryRun};
ghost use Rattle.book_rules.specs.Machine.{replay};
ghost use Rattle.streams.specs.Stream.{AppendsPrefix, HasRisen, appended};

use crate::laws::closed_works_cover_runs;
use chip_analysis::Chip;
use chip_law::LawfulChip;
use closed_book::ClosedBook;
use item_lines::InstrText;
use report_bytes::{closed_report_of, report_of};
use round_core::Book;
use std::alloc::Global;
use streams::{PrintError, Sink, write_all};

/// Writes a text, of which a prefix stands where the sink fails.
fn put_text<K: Sink>(sink: &mut K, text: &[u8]) -> Result<(), PrintError>
    ensures printed { OnOk result (K.held sink.new ≡ appended (K.held sink.old) text.now) }
    ensures quiet { OnOk result (K.faults sink.new ≡ K.faults sink.old) }
    ensures write { IfErr result (λ error. error ≡ PrintError.Write) }
    ensures prefix { OnErr result (AppendsPrefix (K.held sink.old) text.now (K.held sink.new)) }
    ensures cause { OnErr result (HasRisen (K.faults sink.old) (K.faults sink.new)) }
{
    match write_all(sink, text) {
        Ok(()) => Ok(()),
        Err(_) => Err(PrintError::Write),
    }
}

/// Writes the report of a book.
pub fn print_book<C: Chip + InstrText, K: Sink>(
    alloc: Global,
    chip: &C,
    book: &Book<C>,
    sink: &mut K,
) -> Result<(), PrintError>
    ensures printed { OnOk result ((report : List ℕ) × IsReport (C.text_of chip.now) (replay (C.analysis book.now.base) book.now.journal) report
        × (K.held sink.new ≡ appended (K.held sink.old) report)) }
    ensures quiet { OnOk result (K.faults sink.new ≡ K.faults sink.old) }
    ensures prefix { IfErr result (λ error. error ≡ PrintError.Write → (report : List ℕ) × IsReport (C.text_of chip.now) (replay (C.analysis book.now.base) book.now.journal) report
        × AppendsPrefix (K.held sink.old) report (K.held sink.new)) }
    ensures cause { IfErr result (λ error. error ≡ PrintError.Write → HasRisen (K.faults sink.old) (K.faults sink.new)) }
    ensures unwritten { IfErr result (λ error. error ≡ PrintError.Memory → K.held sink.new ≡ K.held sink.old) }
{
    let report = report_of(alloc, chip, book)?;
    put_text(sink, report.text.as_slice())
}

/// The report of a closed book covers every run of the chip.
fn closed_report_covers<C: LawfulChip + InstrText>(chip: &C, book: &ClosedBook<C>)
    ensures { CoversEveryRun (C.machine book.now.base) (C.text_of chip.now)
        (closed_report (C.text_of chip.now) book.now.works) }
{
    book.is_of_closed_table();
    closed_works_cover_runs::<C>();
}

/// Writes the report of a closed book. It says CLOSED, covers every run of the chip, and shows the book's table.
pub fn print_closed<C: LawfulChip + InstrText, K: Sink>(
    alloc: Global,
    chip: &C,
    book: &ClosedBook<C>,
    sink: &mut K,
) -> Result<(), PrintError>
    ensures printed { OnOk result (K.held sink.new
        ≡ appended (K.held sink.old) (closed_report (C.text_of chip.now) book.now.works)) }
    ensures covers { CoversEveryRun (C.machine book.now.base) (C.text_of chip.now)
        (closed_report (C.text_of chip.now) book.now.works) }
    ensures shows { ShowsTable (C.text_of chip.now) (C.analysis book.now.base) (table_in book.now.nodes)
        (closed_report (C.text_of chip.now) book.now.works) }
    ensures quiet { OnOk result (K.faults sink.new ≡ K.faults sink.old) }
    ensures prefix { IfErr result (λ error. error ≡ PrintError.Write
        → AppendsPrefix (K.held sink.old) (closed_report (C.text_of chip.now) book.now.works) (K.held sink.new)) }
    ensures cause { IfErr result (λ error. error ≡ PrintError.Write → HasRisen (K.faults sink.old) (K.faults sink.new)) }
    ensures unwritten { IfErr result (λ error. error ≡ PrintError.Memory → K.held sink.new ≡ K.held sink.old) }
{
    closed_report_covers(chip, book);
    let report = closed_report_of(alloc, chip, book)?;
    put_text(sink, report.as_slice())
}
