//! Books of small chips, by one seat.

ghost use Rattle.std.specs.Prelude.{◌≡◌, IfOk};

use crate::chip::{HANDLER, node_at, of_shape};
use crate::shape::Shape;
use book_rules::Event;
use call_context::{Calls, Node, Unit};
use chip_analysis::Chip;
use no_memory::Memory;
use round_core::{Book, Claimed, Done};
use std::alloc::Global;
use std::test::Fail;

/// Claims a unit, works and posts. False says that there was none.
fn take_turn<C: Chip>(alloc: Global, chip: &C, book: &mut Book<C>) -> Result<bool, Memory>
    requires { C.base chip.now ≡ book.old.base }
    ensures { book.new.base ≡ book.old.base }
{
    match book.claim(chip, 0)? {
        Claimed::Ticket(ticket) => {
            let work = chip.work(alloc, ticket.unit(), ticket.at(), ticket.exit())?;
            match book.post(chip, Done { ticket, work }) {
                Ok(()) => Ok(true),
                Err((memory, _)) => Err(memory),
            }
        }
        Claimed::Idle | Claimed::Finished => Ok(false),
    }
}

/// Takes turns until none has a unit, or a number of them.
fn take_turns<C: Chip>(alloc: Global, chip: &C, book: &mut Book<C>, most: u64) -> Result<(), Memory>
    requires { C.base chip.now ≡ book.old.base }
    ensures { book.new.base ≡ book.old.base }
{
    for _ in 0..most {
        if !take_turn(alloc, chip, book)? {
            return Ok(());
        }
    }
    Ok(())
}

/// Claims, works and posts until the book is finished, or for a number of turns.
pub(crate) fn run_for<C: Chip>(alloc: Global, chip: &C, most: u64) -> Result<Book<C>, Memory>
    ensures { IfOk result (λ book. C.base chip.now ≡ book.base) }
{
    let mut book = Book::open(alloc, chip)?;
    take_turns(alloc, chip, &mut book, most)?;
    Ok(book)
}

/// Whether a book is finished, and how many nodes, works and events it has.
pub(crate) type Sizes = (bool, usize, usize, usize);

pub(crate) fn sizes<C: Chip>(book: &Book<C>) -> Sizes {
    (
        book.finished(),
        book.nodes().len(),
        book.works().len(),
        book.journal().len(),
    )
}

/// The same of a book that nothing else is asked of.
pub(crate) fn sizes_of<C: Chip>(book: Book<C>) -> Sizes {
    sizes(&book)
}

/// The sizes of a book behind a number of turns, and of what it is taken apart into: its nodes, works and events.
fn sizes_behind<C: Chip>(
    alloc: Global,
    chip: &C,
    most: u64,
) -> Result<(Sizes, (usize, usize, usize)), Memory> {
    let book = run_for(alloc, chip, most)?;
    let sizes = sizes(&book);
    let (nodes, works, journal) = book.into_parts();
    Ok((sizes, (nodes.len(), works.len(), journal.len())))
}

/// The same, with what is live in it.
fn live_sizes_behind<C: Chip>(
    alloc: Global,
    chip: &C,
    most: u64,
) -> Result<(Sizes, (usize, usize, usize)), Memory> {
    let book = run_for(alloc, chip, most)?;
    let sizes = sizes(&book);
    let (_, nodes, works, journal) = book.into_live();
    Ok((sizes, (nodes.len(), works.len(), journal.len())))
}

/// Whether a book has these nodes behind a number of turns.
fn has_nodes_behind<C: Chip<Abs = u32>>(
    alloc: Global,
    chip: &C,
    most: u64,
    nodes: &[(Node, u32)],
) -> Result<bool, Memory> {
    let (found, _, _) = run_for(alloc, chip, most)?.into_parts();
    Ok(found.as_slice() == nodes)
}

#[test]
fn counts_to_the_top(rt: HostRuntime) -> Result<(), Fail> {
    let chip = of_shape(Shape::Counting);
    let (sizes, _) = sizes_behind(rt.alloc(), &chip, 1_000)?;
    assert_eq!(rt;
        (sizes, chip.counts()),
        ((true, 1, 1, 128), (14, 32, 16, 1))
    );
    assert!(rt; has_nodes_behind(rt.alloc(), &chip, 1_000, &[(node_at(0), u32::MAX)])?);
    Ok(())
}

/// Whether three turns in a row had a unit.
fn take_three_turns<C: Chip>(
    alloc: Global,
    chip: &C,
    book: &mut Book<C>,
) -> Result<[bool; 3], Memory>
    requires { C.base chip.now ≡ book.old.base }
{
    let first = take_turn(alloc, chip, book)?;
    let second = take_turn(alloc, chip, book)?;
    Ok([first, second, take_turn(alloc, chip, book)?])
}

/// The same of a new book, and its sizes then.
fn three_turns<C: Chip>(alloc: Global, chip: &C) -> Result<([bool; 3], Sizes), Memory> {
    let mut book = Book::open(alloc, chip)?;
    let turns = take_three_turns(alloc, chip, &mut book)?;
    Ok((turns, sizes(&book)))
}

#[test]
fn a_loop_is_claimed_until_its_work_is_nothing_new(rt: HostRuntime) -> Result<(), Fail> {
    let told = three_turns(rt.alloc(), &of_shape(Shape::Loop))?;
    assert_eq!(rt; told, ([true, true, false], (true, 1, 1, 4)));
    Ok(())
}

/// The bound of 64 rises is false for a chip of which nothing is known: here the only node rises at each post.
#[test]
fn rises_without_end(rt: HostRuntime) -> Result<(), Fail> {
    let (sizes, _) = sizes_behind(rt.alloc(), &of_shape(Shape::Restless), 200)?;
    assert_eq!(rt; sizes, (false, 1, 1, 400));
    Ok(())
}

#[test]
fn a_long_chain_ends(rt: HostRuntime) -> Result<(), Fail> {
    let chip = of_shape(Shape::Chain(19_999));
    let found = sizes_behind(rt.alloc(), &chip, 100_000)?;
    let wanted = ((true, 20_000, 20_000, 40_000), (20_000, 20_000, 40_000));
    assert_eq!(rt; found, wanted);
    Ok(())
}

/// What a claim came to: whether there was a unit, whether the book is finished then, and the least number of units that can't be
/// claimed then.
type Told = (bool, bool, u32);

fn told_of<C: Chip>(book: &Book<C>, found: bool) -> Told {
    for least in 0..9 {
        if !book.can_claim(least) {
            return (found, book.finished(), least);
        }
    }
    (found, book.finished(), 9)
}

/// Claims a unit, and keeps it or gives it back. False says that there was none.
fn claim_one<C: Chip>(book: &mut Book<C>, chip: &C, seat: u32, keeps: bool) -> Result<bool, Memory>
    requires { C.base chip.now ≡ book.old.base }
    ensures { book.new.base ≡ book.old.base }
{
    match book.claim(chip, seat)? {
        Claimed::Ticket(_) if keeps => Ok(true),
        Claimed::Ticket(ticket) => {
            book.give_back(ticket);
            Ok(true)
        }
        Claimed::Idle | Claimed::Finished => Ok(false),
    }
}

/// Lets seats claim, of which some keep their unit, and adds what is told behind each claim.
fn claim_all<C: Chip>(
    book: &mut Book<C>,
    chip: &C,
    seats: &[(u32, bool)],
    told: &mut Vec<Told>,
) -> Result<(), Memory>
    requires { C.base chip.now ≡ book.old.base }
{
    for (seat, keeps) in seats {
        let found = claim_one(book, chip, *seat, *keeps)?;
        told.push(told_of(book, found))?;
    }
    Ok(())
}

/// Goes on for a number of turns, and then lets seats claim, of which some keep their unit. It answers what was told in front of the
/// claims and behind each, and whether the journal is this one.
fn claim_each<C: Chip>(
    alloc: Global,
    chip: &C,
    turns: u64,
    seats: &[(u32, bool)],
    events: &[Event],
) -> Result<(Vec<Told>, bool), Memory> {
    let mut book = run_for(alloc, chip, turns)?;
    let mut told = vec![in alloc; told_of(&book, false); 1]?;
    let claimed = claim_all(&mut book, chip, seats, &mut told);
    let (_, _, journal) = book.into_parts();
    claimed?;
    Ok((told, journal.as_slice() == events))
}

fn unit_at(pc: u16) -> Unit {
    Unit::One(node_at(pc))
}

/// One unit goes out to two seats in turn.
fn events_of_one_unit() -> [Event; 4] {
    [
        Event::Claim {
            seat: 1,
            unit: unit_at(0),
        },
        Event::GiveBack {
            seat: 1,
            unit: unit_at(0),
        },
        Event::Claim {
            seat: 2,
            unit: unit_at(0),
        },
        Event::GiveBack {
            seat: 2,
            unit: unit_at(0),
        },
    ]
}

#[test]
fn a_unit_that_is_given_back_comes_again(rt: HostRuntime) -> Result<(), Fail> {
    let chip = of_shape(Shape::Chain(1));
    let seats = [(1, false), (2, false)];
    let (told, same) = claim_each(rt.alloc(), &chip, 0, &seats, &events_of_one_unit())?;
    let wanted = [(false, false, 2), (true, false, 2), (true, false, 2)];
    assert_eq!(rt; told.as_slice(), wanted.as_slice());
    assert!(rt; same);
    Ok(())
}

/// Behind the first turn the location and the handler go out.
fn events_of_two_seats() -> [Event; 4] {
    [
        Event::Claim {
            seat: 0,
            unit: unit_at(0),
        },
        Event::Post {
            seat: 0,
            unit: unit_at(0),
        },
        Event::Claim {
            seat: 1,
            unit: unit_at(4),
        },
        Event::Claim {
            seat: 2,
            unit: Unit::One(Node::At(8, Calls::new(), HANDLER)),
        },
    ]
}

#[test]
fn two_seats_claim_at_once(rt: HostRuntime) -> Result<(), Fail> {
    let chip = of_shape(Shape::Interrupted);
    let seats = [(1, true), (2, true), (3, true)];
    let (told, same) = claim_each(rt.alloc(), &chip, 1, &seats, &events_of_two_seats())?;
    let wanted = [
        (false, false, 3),
        (true, false, 2),
        (true, false, 1),
        (false, false, 1),
    ];
    assert_eq!(rt; told.as_slice(), wanted.as_slice());
    assert!(rt; same);
    Ok(())
}

/// The first of two units goes out and comes back, and then both go out.
#[test]
fn units_to_claim_are_counted(rt: HostRuntime) -> Result<(), Fail> {
    let chip = of_shape(Shape::Interrupted);
    let seats = [(1, false), (1, true), (2, true)];
    let (told, _) = claim_each(rt.alloc(), &chip, 1, &seats, &[])?;
    let wanted = [
        (false, false, 3),
        (true, false, 3),
        (true, false, 2),
        (true, false, 1),
    ];
    assert_eq!(rt; told.as_slice(), wanted.as_slice());
    Ok(())
}

#[test]
fn a_handler_is_entered_and_left(rt: HostRuntime) -> Result<(), Fail> {
    let chip = of_shape(Shape::Interrupted);
    let nodes = [
        (node_at(0), 0),
        (node_at(4), 3),
        (Node::At(8, Calls::new(), HANDLER), 0),
        (Node::Exit(8, HANDLER), 0),
    ];
    assert!(rt; has_nodes_behind(rt.alloc(), &chip, 100, &nodes)?);
    let found = live_sizes_behind(rt.alloc(), &chip, 100)?;
    assert_eq!(rt; found, ((true, 4, 4, 10), (4, 4, 10)));
    Ok(())
}
