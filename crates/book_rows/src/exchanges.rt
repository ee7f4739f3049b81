//! Exchanges of one seat, with works that are looked ahead of.

ghost use Rattle.std.specs.Prelude.{◌≡◌, ◌≤◌, ◌+◌, ◌++◌, [], false, length, option_to_list, IfOk, OnOk, Some};
ghost use Rattle.std.specs.List.{AllByRecursion};
ghost use Rattle.fact_table.specs.Exchange.{IsWorked, tickets_of};
ghost use Rattle.fact_table.specs.Named.{table_of};
ghost use Rattle.fact_table.specs.Seats.{AreOutTo};

use crate::books::run_for;
use crate::chip::{node_at, of_shape};
use crate::shape::Shape;
use book_rules::Event;
use call_context::Node;
use chip_analysis::Chip;
use fact_table::{Exchanged, FactTable, Last, Seat};
use no_memory::Memory;
use round_core::{Book, Done, Ticket};
use std::alloc::Global;
use std::sync::Wait;
use std::test::Fail;

/// Two tickets at most.
type Two<C> = (Option<Ticket<C>>, Option<Ticket<C>>);

/// No tickets: each seat may exchange so.
fn no_tickets<C: Chip>(chip: &C, seat: &Seat<C>) -> Two<C>
    requires { Some (C.base chip.now) ≡ seat.now.base }
    ensures { AreOutTo C.analysis seat.now (option_to_list result.0 ++ option_to_list result.1) }
{
    let _chip = chip;
    let _number = seat.number();
    (None, None)
}

/// Works on the unit of a ticket, if there is one.
fn work_one<C: Chip>(
    alloc: Global,
    chip: &C,
    done: &mut Vec<Done<C>>,
    ticket: Option<Ticket<C>>,
) -> Result<(), Memory>
    requires { AllByRecursion (IsWorked (C.analysis (C.base chip.now))) done.old.items }
    ensures tickets { OnOk result (tickets_of done.new.items ≡ tickets_of done.old.items ++ option_to_list ticket) }
    ensures works { OnOk result (AllByRecursion (IsWorked (C.analysis (C.base chip.now))) done.new.items) }
    ensures few { OnOk result (length done.new.items ≤ length done.old.items + 1) }
{
    if let Some(ticket) = ticket {
        let work = chip.work(alloc, ticket.unit(), ticket.at(), ticket.exit())?;
        done.push(Done { ticket, work })?;
    }
    Ok(())
}

/// The works of tickets.
fn works_of<C: Chip>(alloc: Global, chip: &C, tickets: Two<C>) -> Result<Vec<Done<C>>, Memory>
    ensures tickets { IfOk result (λ done. tickets_of done.items ≡ option_to_list tickets.0 ++ option_to_list tickets.1) }
    ensures works { IfOk result (λ done. AllByRecursion (IsWorked (C.analysis (C.base chip.now))) done.items) }
    ensures few { IfOk result (λ done. length done.items ≤ 2) }
{
    let (first, second) = tickets;
    let mut done = Vec::new(alloc);
    work_one(alloc, chip, &mut done, first)?;
    work_one(alloc, chip, &mut done, second)?;
    Ok(done)
}

/// What an exchange told: why it gave no more tickets, whether units may be left to claim, and how many tickets it gave.
type Told = (Last, bool, usize);

/// Exchanges the works of tickets for units. It answers the last two of their tickets.
fn exchange_two<R: Wait, C: Chip>(
    rt: &R,
    alloc: Global,
    chip: &C,
    table: &FactTable<C>,
    seat: &mut Seat<C>,
    tickets: Two<C>,
    want: u32,
    share: u32,
) -> Result<(Two<C>, Told), Memory>
    requires table { seat.old.table ≡ table_of table.now }
    requires idle { seat.old.holds ≡ false }
    requires chip { Some (C.base chip.now) ≡ seat.old.base }
    requires some { 1 ≤ want }
    requires few { want ≤ 6 }
    requires tickets { AreOutTo C.analysis seat.old (option_to_list tickets.0 ++ option_to_list tickets.1) }
    ensures tickets { IfOk result (λ next. AreOutTo C.analysis seat.new (option_to_list next.0.0 ++ option_to_list next.0.1)) }
    ensures seat { (seat.new.table ≡ seat.old.table) × (seat.new.holds ≡ false) × (seat.new.base ≡ seat.old.base) × (seat.new.stands ≡ seat.old.stands) × (seat.new.made ≡ seat.old.made) }
{
    let done = works_of(alloc, chip, tickets)?;
    let exchanged = table.exchange(rt, alloc, chip, seat, done, want, share);
    let Exchanged {
        unposted: _,
        mut tickets,
        last,
        left,
    } = exchanged;
    let told = (last, left, tickets.len());
    let second = tickets.pop();
    let first = tickets.pop();
    Ok(((first, second), told))
}

/// Exchanges the works of all tickets, by rows of how many units are wanted, 1 to 6, and left to share.
fn exchange_each<R: Wait, C: Chip>(
    rt: &R,
    alloc: Global,
    chip: &C,
    turns: &[(u32, u32)],
) -> Result<(Book<C>, Vec<Told>), Memory> {
    let book = Book::open(alloc, chip)?;
    let (table, mut seat) = FactTable::new(alloc, book, 1)?;
    let mut tickets = no_tickets(chip, &seat);
    let mut all = Vec::new(alloc);
    for (want, share) in turns {
        let want = (*want).max(1).min(6);
        let (next, told) = exchange_two(rt, alloc, chip, &table, &mut seat, tickets, want, *share)?;
        tickets = next;
        all.push(told)?;
    }
    Ok((table.close(seat), all))
}

/// The nodes with their numbers, and the events.
type Parts = (Vec<(Node, u32)>, Vec<Event>);

fn parts_of<C: Chip<Abs = u32>>(book: Book<C>) -> Parts {
    let (nodes, _, journal) = book.into_parts();
    (nodes, journal)
}

/// What exchanges told, and the parts of the book behind them.
fn told_by<R: Wait, C: Chip<Abs = u32>>(
    rt: &R,
    alloc: Global,
    chip: &C,
    turns: &[(u32, u32)],
) -> Result<(Vec<Told>, Parts), Memory> {
    let (book, told) = exchange_each(rt, alloc, chip, turns)?;
    Ok((told, parts_of(book)))
}

/// The root goes out, and then one of two units, of which one is left to share. The other is the last that can be claimed.
#[test]
fn each_reason_is_met(rt: HostRuntime) -> Result<(), Fail> {
    let turns = [(1, 1), (4, 2), (4, 1), (1, 1)];
    let (told, parts) = told_by(&rt, rt.alloc(), &of_shape(Shape::Tree(2)), &turns)?;
    let wanted = [
        (Last::Full, false, 1),
        (Last::Shared, true, 1),
        (Last::Idle, false, 1),
        (Last::Finished, false, 0),
    ];
    assert_eq!(rt; told.as_slice(), wanted.as_slice());
    assert_eq!(rt; parts.1.len(), 6);
    Ok(())
}

/// Both tickets of the fourth turn have location 3 as it was, with 2. Ahead of the fifth turn the first work makes 6 of that, and the
/// second one 3. The second post finds it risen, and works out anew that 3 is within 6.
#[test]
fn what_has_risen_is_worked_out_anew(rt: HostRuntime) -> Result<(), Fail> {
    let chip = of_shape(Shape::Racing);
    let (told, parts) = told_by(&rt, rt.alloc(), &chip, &[(2, 1); 6])?;
    let wanted = [
        (Last::Idle, false, 1),
        (Last::Full, false, 2),
        (Last::Idle, false, 1),
        (Last::Full, false, 2),
        (Last::Idle, false, 1),
        (Last::Finished, false, 0),
    ];
    assert_eq!(rt; told.as_slice(), wanted.as_slice());
    let nodes = [
        (node_at(0), 0),
        (node_at(1), 2),
        (node_at(2), 2),
        (node_at(3), 6),
    ];
    assert_eq!(rt; parts.0.as_slice(), nodes.as_slice());
    Ok(())
}

/// The parts of a book by posts that don't look ahead.
fn posted<C: Chip<Abs = u32>>(alloc: Global, chip: &C) -> Result<Parts, Memory> {
    Ok(parts_of(run_for(alloc, chip, 200)?))
}

/// Of two units that are out beside each other the second one looks ahead. As many calls make the same nodes as without: what was
/// looked ahead is taken, and not worked out again.
#[test]
fn looking_ahead_makes_the_same_nodes(rt: HostRuntime) -> Result<(), Fail> {
    let (chip, ahead) = (of_shape(Shape::Pair), of_shape(Shape::Pair));
    let (nodes, journal) = posted(rt.alloc(), &chip)?;
    let (_, looked) = told_by(&rt, rt.alloc(), &ahead, &[(2, 1); 70])?;
    let found = (looked.0, looked.1.len(), ahead.counts());
    let wanted = (nodes, journal.len(), (28, 64, 32, 2));
    assert_eq!(rt; (found, chip.counts()), (wanted, (28, 64, 32, 2)));
    Ok(())
}
