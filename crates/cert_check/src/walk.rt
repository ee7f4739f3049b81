//! The walk over a table.

ghost use Rattle.std.specs.Prelude.{◌≡◌, ◌+◌, ◌<◌, ◌^◌, ◌++◌, ◌∷◌, [], None, Some, if◌then◌else◌, flat_map, map, option_copied, length, IfOk, IfErr, OnOk};
ghost use Rattle.report_bytes.specs.Opens.{open_line_of};
ghost use Rattle.closed_book.specs.ClosedBook.{table_in};
ghost use Rattle.cert_text.specs.Certificate.{is_below};
ghost use Rattle.cert_check.specs.Exits.{returned};
ghost use Rattle.cert_check.specs.Refusal as refusals;
ghost use Rattle.cert_check.specs.Refusal.{Decides, Tells, first_of, least_from, open_refusal, post_refusal, refusal_of, return_from, rows_refusal, start_refusal, unit_refusal, units_of, work_refusal, worked, works_in};

use crate::exits::{Exits, exits_in};
use crate::laws::tables_are_known;
use crate::refusal::{CheckError, Refusal};
use crate::table::Table;
use call_context::{Frame, Node, Unit};
use cert_text::Cert;
use chip_analysis::{Cause, Work};
use closed_book::ClosedBook;
use no_memory::Memory;
use report_bytes::open_line;
use state_text::LawfulText;
use std::alloc::Global;

/// Refuses the start where the table doesn't hold it.
fn hold_start<C: LawfulText>(
    alloc: Global,
    chip: &C,
    table: &Table<C::Abs>,
) -> Result<(), CheckError>
    ensures { (let b = C.base chip.now in let a = C.analysis b in
        Decides (start_refusal (C.texts b).outside a.first_node a.first_state (table_in table.now a.first_node)) result) }
{
    let (node, state) = chip.start(alloc)?;
    let Some(held) = table.get(&node) else {
        return Err(CheckError::Refused(Refusal::NoStart));
    };
    match chip.first_outside(alloc, &state, held)? {
        None => Ok(()),
        Some(outside) => Err(CheckError::Refused(Refusal::NotIn {
            line: 0,
            target: node,
            outside,
        })),
    }
}

/// Refuses a post that the table doesn't hold.
fn hold_post<C: LawfulText>(
    alloc: Global,
    chip: &C,
    table: &Table<C::Abs>,
    line: u32,
    post: &(Node, C::Abs),
) -> Result<(), CheckError>
    ensures { (let b = C.base chip.now in
        Decides (post_refusal (C.texts b).outside table.now line post.now) result) }
{
    let (node, state) = post;
    let Some(held) = table.get(node) else {
        return Err(CheckError::Refused(Refusal::Unknown {
            line,
            target: *node,
        }));
    };
    match chip.first_outside(alloc, state, held)? {
        None => Ok(()),
        Some(outside) => Err(CheckError::Refused(Refusal::NotIn {
            line,
            target: *node,
            outside,
        })),
    }
}

/// Refuses the first post that the table doesn't hold.
fn hold_posts<C: LawfulText>(
    alloc: Global,
    chip: &C,
    table: &Table<C::Abs>,
    line: u32,
    posts: &[(Node, C::Abs)],
) -> Result<(), CheckError>
    ensures { (let b = C.base chip.now in
        Decides (first_of (post_refusal (C.texts b).outside table.now line) posts.now) result) }
{
    for post in posts {
        hold_post(alloc, chip, table, line, post)?;
    }
    Ok(())
}

/// The one of two sites whose line in a report is the lesser.
fn lesser(alloc: Global, least: (u16, Cause), site: &(u16, Cause)) -> Result<(u16, Cause), Memory>
    ensures { IfOk result (λ lesser. lesser
        ≡ (if is_below (open_line_of site.now.0 site.now.1) (open_line_of least.0 least.1) then site.now else least)) }
{
    let line = open_line(alloc, site.0, &site.1)?;
    if line.cmp(&open_line(alloc, least.0, &least.1)?).is_lt() {
        Ok(*site)
    } else {
        Ok(least)
    }
}

/// Refuses open sites.
fn refuse_opens(alloc: Global, line: u32, opens: &[(u16, Cause)]) -> Result<(), CheckError>
    ensures { Decides (open_refusal line opens.now) result }
{
    let [first, others @ ..] = opens else {
        return Ok(());
    };
    let (pc, cause) = least_of(alloc, *first, others)?;
    Err(CheckError::Refused(Refusal::HasOpen { line, pc, cause }))
}

/// The one of some sites whose line in a report is the least.
fn least_of(
    alloc: Global,
    first: (u16, Cause),
    others: &[(u16, Cause)],
) -> Result<(u16, Cause), Memory>
    ensures { IfOk result (λ least. least ≡ least_from first others.now) }
{
    let mut least = first;
    for site in others {
        least = lesser(alloc, least, site)?;
    }
    Ok(least)
}

/// The work of a unit, refused where it leaves a site open or the table doesn't hold its posts.
fn held_work<C: LawfulText>(
    alloc: Global,
    chip: &C,
    table: &Table<C::Abs>,
    line: u32,
    unit: &Unit,
    at: &C::Abs,
    exit: Option<&C::Abs>,
) -> Result<Work<C::Abs>, CheckError>
    ensures work { (let b = C.base chip.now in
        IfOk result (λ work. work ≡ (C.analysis b).work unit.now at.now (option_copied exit.entry))) }
    ensures held { (let b = C.base chip.now in let work = (C.analysis b).work unit.now at.now (option_copied exit.entry) in
        Decides (work_refusal (C.texts b).outside table.now line work) result) }
{
    let work = chip.work(alloc, unit, at, exit)?;
    refuse_opens(alloc, line, work.opens.as_slice())?;
    hold_posts(alloc, chip, table, line, work.posts.as_slice())?;
    Ok(work)
}

/// Adds the work of a unit.
fn push_work<A>(works: &mut Vec<(Unit, Work<A>)>, unit: Unit, work: Work<A>) -> Result<(), Memory>
where
    A: Drop,
    ensures { OnOk result (works.new.items ≡ works.old.items ++ (unit, work) ∷ []) }
{
    works.push((unit, work))?;
    Ok(())
}

/// Adds the return to a location from an exit.
fn add_return<C: LawfulText>(
    alloc: Global,
    chip: &C,
    table: &Table<C::Abs>,
    line: u32,
    row: &(Node, C::Abs),
    exit: &(Node, C::Abs),
    works: &mut Vec<(Unit, Work<C::Abs>)>,
) -> Result<(), CheckError>
    ensures held { (let a = C.analysis (C.base chip.now) in let inputs = returned row.now.0 row.now.1 exit.now in
        Decides (first_of (unit_refusal a (C.texts (C.base chip.now)).outside table.now line) inputs) result) }
    ensures works { (let a = C.analysis (C.base chip.now) in let inputs = returned row.now.0 row.now.1 exit.now in
        OnOk result (works.new.items ≡ works.old.items ++ map (worked a) inputs)) }
{
    let (node, left) = exit;
    let Node::Exit(_, _) = node else {
        return Ok(());
    };
    let unit = Unit::Back(row.0, *node);
    let work = held_work(alloc, chip, table, line, &unit, &row.1, Some(left))?;
    push_work(works, unit, work)?;
    Ok(())
}

/// The returns to a location from exits of the frames that it waits for.
fn returns_of<C: LawfulText>(
    alloc: Global,
    chip: &C,
    table: &Table<C::Abs>,
    line: u32,
    row: &(Node, C::Abs),
    waits: &[Frame],
    exits: &Exits<'_, C::Abs>,
) -> Result<Vec<(Unit, Work<C::Abs>)>, CheckError>
    ensures held { (let a = C.analysis (C.base chip.now) in let inputs = flat_map (return_from row.now.0 row.now.1 waits.now) exits.now in
        Decides (first_of (unit_refusal a (C.texts (C.base chip.now)).outside table.now line) inputs) result) }
    ensures works { (let a = C.analysis (C.base chip.now) in let inputs = flat_map (return_from row.now.0 row.now.1 waits.now) exits.now in
        IfOk result (λ works. works.items ≡ map (worked a) inputs)) }
{
    let mut works = Vec::new(alloc);
    let mut due = exits.of_frames(alloc, waits)?;
    while let Some(exit) = due.next() {
        add_return(alloc, chip, table, line, row, exit, &mut works)?;
    }
    Ok(works)
}

/// No second input, which a location's own unit hasn't.
fn no_exit<A>(_at: &A) -> Option<&A>
    ensures { option_copied result ≡ None }
{
    None
}

/// Adds all of a list.
fn move_all<T>(mut from: Vec<T>, to: &mut Vec<T>) -> Result<(), Memory>
where
    T: Drop,
    ensures { OnOk result (to.new.items ≡ to.old.items ++ from.items) }
{
    to.append(&mut from)?;
    Ok(())
}

/// Adds the units of a row with their works.
fn add_units<C: LawfulText>(
    alloc: Global,
    chip: &C,
    table: &Table<C::Abs>,
    line: u32,
    exits: &Exits<'_, C::Abs>,
    row: &(Node, C::Abs),
    works: &mut Vec<(Unit, Work<C::Abs>)>,
) -> Result<(), CheckError>
    ensures held { (let a = C.analysis (C.base chip.now) in let inputs = units_of a exits.now row.now in
        Decides (first_of (unit_refusal a (C.texts (C.base chip.now)).outside table.now line) inputs) result) }
    ensures works { (let a = C.analysis (C.base chip.now) in let inputs = units_of a exits.now row.now in
        OnOk result (works.new.items ≡ works.old.items ++ map (worked a) inputs)) }
{
    let (node, state) = row;
    let Node::At(_, _, _) = node else {
        return Ok(());
    };
    let unit = Unit::One(*node);
    let work = held_work(alloc, chip, table, line, &unit, state, no_exit(state))?;
    let returns = returns_of(alloc, chip, table, line, row, work.waits.as_slice(), exits)?;
    push_work(works, unit, work)?;
    move_all(returns, works)?;
    Ok(())
}

/// The units of a table with their works, by its exits.
fn works_by<C: LawfulText>(
    alloc: Global,
    chip: &C,
    table: &Table<C::Abs>,
    first: u32,
    exits: &Exits<'_, C::Abs>,
) -> Result<Vec<(Unit, Work<C::Abs>)>, CheckError>
    requires lines { first + length table.now < 2 ^ 32 }
    requires exits { exits.now ≡ refusals.exits_in table.now }
    ensures held { (let a = C.analysis (C.base chip.now) in
        Decides (rows_refusal a (C.texts (C.base chip.now)).outside table.now first table.now) result) }
    ensures works { (let a = C.analysis (C.base chip.now) in
        IfOk result (λ works. works.items ≡ works_in a table.now)) }
{
    let rows = table.as_slice();
    let mut works = Vec::new(alloc);
    for (place, row) in rows.iter().enumerate() {
        add_units(
            alloc,
            chip,
            table,
            first + place as u32,
            exits,
            row,
            &mut works,
        )?;
    }
    Ok(works)
}

/// The units of a table with their works.
fn works_of<C: LawfulText>(
    alloc: Global,
    chip: &C,
    table: &Table<C::Abs>,
    first: u32,
) -> Result<Vec<(Unit, Work<C::Abs>)>, CheckError>
    requires { first + length table.now < 2 ^ 32 }
    ensures held { (let a = C.analysis (C.base chip.now) in
        Decides (rows_refusal a (C.texts (C.base chip.now)).outside table.now first table.now) result) }
    ensures works { (let a = C.analysis (C.base chip.now) in
        IfOk result (λ works. works.items ≡ works_in a table.now)) }
{
    let exits = Exits::new(alloc, exits_in(table.as_slice()))?;
    works_by(alloc, chip, table, first, &exits)
}

/// The closed book of a certificate's table, or the first refusal.
pub fn check<C: LawfulText>(
    alloc: Global,
    chip: &C,
    cert: Cert<C>,
) -> Result<ClosedBook<C>, CheckError>
    requires { C.base chip.now ≡ cert.base }
    ensures refused { (let a = C.analysis cert.base in
        IfErr result (Tells (refusal_of a (C.texts cert.base).outside cert.rows cert.first))) }
    ensures held { (let a = C.analysis cert.base in
        OnOk result (refusal_of a (C.texts cert.base).outside cert.rows cert.first ≡ None)) }
    ensures closed { (let a = C.analysis cert.base in
        IfOk result (λ book. book ≡ record { base = cert.base; nodes = cert.rows; works = works_in a cert.rows })) }
{
    chip.is_program();
    tables_are_known::<C>();
    let first = cert.first();
    let _rows = cert.nodes();
    let table = Table::new(alloc, cert.into_nodes())?;
    hold_start(alloc, chip, &table)?;
    let works = works_of(alloc, chip, &table, first)?;
    Ok(ClosedBook::of_table(chip, table.into_rows(), works))
}
