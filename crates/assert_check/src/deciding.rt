//! Which assertions a closed book breaks.

ghost use Rattle.std.specs.Prelude.{◌≡◌, [], filter, fold, flat_map, IfOk};
ghost use Rattle.std.specs.Cmp.Lexicographic.{slice_cmp};
ghost use Rattle.std.specs.Map.{values_of};
ghost use Rattle.std.specs.Ordering.{is_lt, nat_cmp};
ghost use Rattle.item_lines.specs.Line.{item_line_of};
ghost use Rattle.assert_check.specs.Assertions.{breaks_item, broken_of, least_of, lesser};
ghost use Rattle.assert_check.specs.Holding.{Holds, HoldsBut};

use crate::assertion::Assertion;
use crate::breaking::breaks;
use crate::laws::{unbroken_lists_hold, unnamed_assertions_hold};
use call_context::{Item, Unit};
use chip_analysis::Work;
use chip_law::LawfulChip;
use closing_law::{ClosedBook, covers_runs};
use item_lines::{InstrText, item_line};
use no_memory::Memory;
use std::alloc::Global;

/// An assertion that is broken.
#[derive(Drop)]
pub struct Broken {
    /// The number of its line.
    pub line: u32,
    /// The item that breaks it, of several the one whose line in a report is the least in the order of bytes.
    pub item: Item,
}

/// Whether the bytes of a line stand before those of another one.
fn is_before(first: &[u8], second: &[u8]) -> bool
    ensures { result ≡ is_lt (slice_cmp nat_cmp first.now second.now) }
{
    first.cmp(second).is_lt()
}

/// The held item, or another one whose line is less.
fn lesser<C: InstrText>(
    alloc: Global,
    chip: &C,
    held: Option<Item>,
    item: &Item,
) -> Result<Option<Item>, Memory>
    ensures { IfOk result (λ least. least ≡ lesser (item_line_of (C.text_of chip.now)) held item.now) }
{
    let Some(held) = held else {
        return Ok(Some(item.copy()));
    };
    let line = item_line(alloc, chip, item)?;
    let held_line = item_line(alloc, chip, &held)?;
    if is_before(line.as_slice(), held_line.as_slice()) {
        Ok(Some(item.copy()))
    } else {
        Ok(Some(held))
    }
}

/// The held item, or one of these that breaks the assertion and whose line is less.
fn least_among<C: InstrText>(
    alloc: Global,
    chip: &C,
    assertion: Assertion,
    items: &[Item],
    held: Option<Item>,
) -> Result<Option<Item>, Memory>
    ensures { IfOk result (λ least. least
        ≡ fold (lesser (item_line_of (C.text_of chip.now))) held (filter (breaks_item assertion) items.now)) }
{
    let mut least = held;
    for item in items {
        if breaks(assertion, item) {
            least = lesser(alloc, chip, least, item)?;
        }
    }
    Ok(least)
}

/// The item of works that breaks the assertion, of several the one whose line is the least.
fn least_broken<C: InstrText, A>(
    alloc: Global,
    chip: &C,
    assertion: Assertion,
    works: &[(Unit, Work<A>)],
) -> Result<Option<Item>, Memory>
    ensures { IfOk result (λ least. least ≡ least_of (item_line_of (C.text_of chip.now))
        (filter (breaks_item assertion) (flat_map (λ work. work.items) (values_of works.now)))) }
{
    let mut least = None;
    for (_, work) in works {
        least = least_among(alloc, chip, assertion, work.items.as_slice(), least)?;
    }
    Ok(least)
}

/// The assertions that a closed book breaks, in the order of the list. Each other one holds of every run.
pub fn decide<C: LawfulChip + InstrText>(
    alloc: Global,
    chip: &C,
    book: &ClosedBook<C>,
    list: &[(u32, Assertion)],
) -> Result<Vec<Broken>, Memory>
    ensures exact { IfOk result (λ broken. broken.items ≡ broken_of (item_line_of (C.text_of chip.now)) list.now
        (flat_map (λ work. work.items) (values_of book.now.works))) }
    ensures holds_but { IfOk result (λ broken. HoldsBut (C.machine book.now.base) list.now broken.items) }
    ensures holds { IfOk result (λ broken. broken.items ≡ [] → Holds (C.machine book.now.base) list.now) }
{
    covers_runs(book);
    unnamed_assertions_hold::<C>();
    unbroken_lists_hold::<C>();
    let mut broken = Vec::new(alloc);
    for (line, assertion) in list {
        if let Some(item) = least_broken(alloc, chip, *assertion, book.works())? {
            broken.push(Broken { line: *line, item })?;
        }
    }
    Ok(broken)
}
