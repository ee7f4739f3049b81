//! The report of a book.

ghost use Rattle.std.specs.Prelude.{◌≡◌, ◌++◌, ◌&&◌, if◌then◌else◌, true, [], None, map, IfOk, OnOk};
ghost use Rattle.closed_book.specs.ClosedBook.{table_in};
ghost use Rattle.report_bytes.specs.Opens.{open_line_of};
ghost use Rattle.report_bytes.specs.Shows.{ShowsTable};
ghost use Rattle.book_rules.specs.Kept.{live_works};
ghost use Rattle.book_rules.specs.Machine.{replay};
ghost use Rattle.report_bytes.specs.Deepest.{deepest_of as the_deepest_of, deepest_text};
ghost use Rattle.report_bytes.specs.Report.{with_lines, lines_of, reported_lines, items_of, is_empty, are_closed, report_text, closed_report, counts_of, head_line as the_head_line, summary_line, IsReportOf};
ghost use Rattle.std.specs.Map.{values_of};
ghost use Rattle.item_lines.specs.Line.{item_line_of};

use crate::deepest::{Deepest, deepest_of};
use crate::lines::{Counts, Lines};
use crate::opens::open_line;
use call_context::{Item, Unit};
use chip_analysis::{Cause, Chip, OrderlyChip, Work};
use closed_book::ClosedBook;
use hex_digits::{hex_byte, hex_word};
use item_lines::{InstrText, item_line};
use no_memory::Memory;
use round_core::Book;
use std::alloc::{AllocError, Global};

/// The text of a report, whether it is closed, and what a summary of it tells.
#[derive(Drop)]
pub struct Report {
    pub text: Vec<u8>,
    pub is_closed: bool,
    pub deepest: Option<Deepest>,
    pub counts: Counts,
}

/// Puts the lines of items into a set.
fn add_items<C: Chip + InstrText>(
    alloc: Global,
    chip: &C,
    items: &[Item],
    lines: &mut Lines,
) -> Result<(), Memory>
    ensures { OnOk result (lines.new ≡ with_lines lines.old (map (item_line_of (C.text_of chip.now)) items.now)) }
{
    for item in items {
        lines.add(item_line(alloc, chip, item)?)?;
    }
    Ok(())
}

/// Puts the lines of opens into a set.
fn add_opens(alloc: Global, opens: &[(u16, Cause)], lines: &mut Lines) -> Result<(), Memory>
    ensures { OnOk result (lines.new ≡ with_lines lines.old (map (λ o. open_line_of o.0 o.1) opens.now)) }
{
    for (pc, cause) in opens {
        lines.add(open_line(alloc, *pc, cause)?)?;
    }
    Ok(())
}

/// What is told of works.
#[derive(Drop)]
struct Told {
    lines: Lines,
    is_closed: bool,
    deepest: Option<Deepest>,
}

/// Adds what is told of a work, if its unit is one of the book.
fn tell<C: Chip + InstrText>(
    alloc: Global,
    chip: &C,
    work: &Work<C::Abs>,
    is_live: bool,
    told: &mut Told,
) -> Result<(), Memory>
    ensures lines { OnOk result (told.new.lines ≡ with_lines told.old.lines (if is_live then lines_of (C.text_of chip.now) work.now else [])) }
    ensures closed { OnOk result (told.new.is_closed ≡ (told.old.is_closed && (if is_live then is_empty work.now.opens else true))) }
    ensures deepest { OnOk result (told.new.deepest ≡ the_deepest_of told.old.deepest (if is_live then work.now.items else [])) }
{
    if !is_live {
        return Ok(());
    }
    add_items(alloc, chip, work.items.as_slice(), &mut told.lines)?;
    add_opens(alloc, work.opens.as_slice(), &mut told.lines)?;
    told.is_closed = told.is_closed && work.opens.as_slice().is_empty();
    told.deepest = deepest_of(told.deepest, work.items.as_slice());
    Ok(())
}

/// What is told of the last works of a book's units.
fn tell_all<C: Chip + InstrText>(alloc: Global, chip: &C, book: &Book<C>) -> Result<Told, Memory>
    ensures lines { IfOk result (λ told. told.lines ≡ reported_lines (C.text_of chip.now) (live_works (replay (C.analysis book.now.base) book.now.journal))) }
    ensures closed { IfOk result (λ told. told.is_closed ≡ are_closed (live_works (replay (C.analysis book.now.base) book.now.journal))) }
    ensures deepest { IfOk result (λ told. told.deepest ≡ the_deepest_of None (items_of (live_works (replay (C.analysis book.now.base) book.now.journal)))) }
{
    let mut told = Told {
        lines: Lines::new(alloc),
        is_closed: true,
        deepest: None,
    };
    for (unit, work) in book.works() {
        let is_live = book.is_live(unit);
        tell(alloc, chip, work, is_live, &mut told)?;
    }
    Ok(told)
}

/// What is told of works, each of which is the last one of a unit.
fn tell_each<C: Chip + InstrText>(
    alloc: Global,
    chip: &C,
    works: &[(Unit, Work<C::Abs>)],
) -> Result<Told, Memory>
    ensures lines { IfOk result (λ told. told.lines ≡ reported_lines (C.text_of chip.now) (values_of works.now)) }
    ensures closed { IfOk result (λ told. told.is_closed ≡ are_closed (values_of works.now)) }
    ensures deepest { IfOk result (λ told. told.deepest ≡ the_deepest_of None (items_of (values_of works.now))) }
{
    let mut told = Told {
        lines: Lines::new(alloc),
        is_closed: true,
        deepest: None,
    };
    for (_, work) in works {
        tell(alloc, chip, work, true, &mut told)?;
    }
    Ok(told)
}

/// Adds the deepest stack pointer.
fn push_deepest(text: &mut Vec<u8>, deepest: Option<Deepest>) -> Result<(), AllocError>
    ensures { OnOk result (text.new.items ≡ text.old.items ++ deepest_text deepest) }
{
    match deepest {
        Some(Deepest::Least(value)) => text.extend_from_slice(&hex_word(value)),
        Some(Deepest::Greatest(value)) => text.extend_from_slice(&hex_byte(value)),
        None => text.extend_from_slice(b"none"),
    }
}

/// Adds the summary: the deepest stack pointer, and how many lines tell a whole set of them.
pub fn push_summary(
    text: &mut Vec<u8>,
    deepest: Option<Deepest>,
    whole: u64,
) -> Result<(), AllocError>
    ensures { OnOk result (text.new.items ≡ text.old.items ++ summary_line deepest whole) }
{
    text.extend_from_slice(b"T ")?;
    push_deepest(text, deepest)?;
    let whole = whole.to_string(*text.allocator())?;
    text.push(b' ')?;
    text.extend_from_slice(whole.as_str().as_bytes())?;
    text.push(b'\n').map_err(AllocError::from)
}

/// The first line of a report, with its line feed.
pub fn head_line(is_closed: bool) -> &'static [u8]
    ensures { result.now ≡ the_head_line is_closed }
{
    if is_closed { b"CLOSED\n" } else { b"OPEN\n" }
}

/// The text of what was told.
fn text_of(alloc: Global, told: &Told) -> Result<Vec<u8>, AllocError>
    ensures { IfOk result (λ text. text.items ≡ report_text told.now.is_closed told.now.lines told.now.deepest) }
{
    let mut text = Vec::new(alloc);
    text.extend_from_slice(head_line(told.is_closed))?;
    told.lines.push_to(&mut text)?;
    push_summary(&mut text, told.deepest, told.lines.counts().whole)?;
    Ok(text)
}

/// The report of the last works of a book's units. It is closed where the book is finished and none of its sites is open.
pub fn report_of<C: Chip + InstrText>(
    alloc: Global,
    chip: &C,
    book: &Book<C>,
) -> Result<Report, Memory>
    ensures report { IfOk result (λ report. IsReportOf (C.text_of chip.now)
        (replay (C.analysis book.now.base) book.now.journal) report.text.items report.is_closed) }
    ensures deepest { (let works = live_works (replay (C.analysis book.now.base) book.now.journal) in
        IfOk result (λ report. report.deepest ≡ the_deepest_of None (items_of works))) }
    ensures counts { (let works = live_works (replay (C.analysis book.now.base) book.now.journal) in
        IfOk result (λ report. report.counts ≡ counts_of (reported_lines (C.text_of chip.now) works))) }
{
    let mut told = tell_all(alloc, chip, book)?;
    told.is_closed = book.finished() && told.is_closed;
    let text = text_of(alloc, &told)?;
    Ok(Report {
        text,
        is_closed: told.is_closed,
        deepest: told.deepest,
        counts: told.lines.counts(),
    })
}

/// The report of a closed book shows the book's table.
fn closed_report_shows<C: OrderlyChip + InstrText>(chip: &C, book: &ClosedBook<C>)
    ensures { ShowsTable (C.text_of chip.now) (C.analysis book.now.base)
        (table_in book.now.nodes)
        (closed_report (C.text_of chip.now) book.now.works) }
{
    book.is_of_closed_table();
}

/// The report of a closed book. It shows the book's table.
pub fn closed_report_of<C: OrderlyChip + InstrText>(
    alloc: Global,
    chip: &C,
    book: &ClosedBook<C>,
) -> Result<Vec<u8>, Memory>
    ensures report { IfOk result (λ text. text.items
        ≡ closed_report (C.text_of chip.now) book.now.works) }
    ensures shows { ShowsTable (C.text_of chip.now) (C.analysis book.now.base)
        (table_in book.now.nodes)
        (closed_report (C.text_of chip.now) book.now.works) }
{
    closed_report_shows(chip, book);
    let told = tell_each(alloc, chip, book.works())?;
    Ok(text_of(alloc, &told)?)
}
