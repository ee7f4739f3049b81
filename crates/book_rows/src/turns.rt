//! A list of numbers under the lock, written by one thread and by two.
ghost use Rattle.std.specs.Prelude.{◌≡◌, ◌<◌, ◌++◌, false, List, All, IfOk};
ghost use Rattle.turn_table.specs.Events.{AllBelow};
ghost use Rattle.turn_table.specs.Named.{name_of};
ghost use Rattle.book_rows.specs.declared.turns.Line.{Line};

use no_memory::Memory;
use std::alloc::Global;
use std::sync::Wait;
use std::test::Fail;
use std::thread::{Threads, join};
use turn_table::{Journaled, Seat, TurnTable};

#[derive(Clone, Copy, Debug, PartialEq)]
struct Line {
    seat: u32,
    number: u32,
}

/// Numbers, each with the seat that wrote it down.
#[derive(Drop)]
struct Numbers {
    name: u32,
    lines: Vec<Line>,
}

impl Journaled for Numbers {
    type Event = Line;

    type Base = u32;

    ghost history = { λ n. n.lines.items };

    ghost base = { λ n. n.name };

    ghost seat_of = { λ l. l.seat };
}

impl Numbers {
    fn write(&mut self, seat: u32, number: u32) -> Result<(), Memory>
        ensures lines { (added : List Line) × (self.new.lines.items ≡ self.old.lines.items ++ added) × All (λ l. l.seat ≡ seat) added }
        ensures name { self.new.name ≡ self.old.name }
    {
        self.lines.push(Line { seat, number })?;
        Ok(())
    }
}

/// Writes one number down, in a turn of its own.
fn write_one<R: Wait>(
    rt: &R,
    table: &TurnTable<Numbers>,
    seat: &mut Seat<Numbers>,
    number: u32,
) -> Result<(), Memory>
    requires table { seat.old.table ≡ name_of table.now }
    requires idle { seat.old.holds ≡ false }
    ensures seat { (seat.new.table ≡ seat.old.table) × (seat.new.holds ≡ false) × (seat.new.seats ≡ seat.old.seats) × (seat.new.stands ≡ seat.old.stands) × (seat.new.made ≡ seat.old.made) }
{
    let mut turn = table.turn(rt, seat);
    let written = turn.value.write(seat.number(), number);
    table.pass(seat, turn);
    written
}

/// Writes the numbers below `count` down.
fn write_all<R: Wait>(
    rt: &R,
    table: &TurnTable<Numbers>,
    mut seat: Seat<Numbers>,
    count: u32,
) -> Seat<Numbers>
    requires table { seat.table ≡ name_of table.now }
    requires idle { seat.holds ≡ false }
    ensures seat { (result.table ≡ seat.table) × (result.holds ≡ false) × (result.seats ≡ seat.seats) × (result.stands ≡ seat.stands) × (result.made ≡ seat.made) }
{
    for number in 0..count {
        let _written = write_one(rt, table, &mut seat, number);
    }
    seat
}

/// Two seats write the numbers below `count` down, each in a thread of its own.
fn write_both<R: Threads + Wait + Sync>(
    rt: &R,
    alloc: Global,
    count: u32,
) -> Result<Numbers, Memory>
    ensures { IfOk result (λ n. AllBelow (λ l. l.seat) 2 n.lines.items) }
{
    let numbers = Numbers {
        name: 7,
        lines: Vec::new(alloc),
    };
    let (table, mut first) = TurnTable::new(alloc, numbers, 2)?;
    let second = table.split(&mut first);
    let shared = &table;
    let (mut first, second) = join(
        rt,
        move || write_all(rt, shared, first, count),
        move || write_all(rt, shared, second, count),
    );
    table.join(&mut first, second);
    Ok(table.close(first))
}

/// Whether a seat wrote the numbers below `count` down, in this order.
fn are_in_order(lines: &[Line], seat: u32, count: u32) -> bool {
    let mut next = 0u32;
    for line in lines {
        if line.seat == seat {
            if line.number != next {
                return false;
            }
            next = next.wrapping_add(1);
        }
    }
    next == count
}

#[test]
fn two_threads_take_turns(rt: HostRuntime) -> Result<(), Fail> {
    let numbers = write_both(&rt, rt.alloc(), 20_000)?;
    let lines = numbers.lines.as_slice();
    let ordered = [0, 1].map(|seat| are_in_order(lines, seat, 20_000));
    assert_eq!(rt;
        (numbers.name, lines.len(), ordered),
        (7, 40_000, [true, true])
    );
    Ok(())
}

/// Three seats, one in another, write a number each.
fn write_alone<R: Wait>(rt: &R, alloc: Global) -> Result<Numbers, Memory> {
    let numbers = Numbers {
        name: 7,
        lines: Vec::new(alloc),
    };
    let (table, mut first) = TurnTable::new(alloc, numbers, 3)?;
    let mut second = table.split(&mut first);
    let mut third = table.split(&mut first);
    let a = write_one(rt, &table, &mut third, 30);
    let b = write_one(rt, &table, &mut first, 10);
    let c = write_one(rt, &table, &mut second, 20);
    table.join(&mut third, second);
    table.join(&mut third, first);
    let numbers = table.close(third);
    a?;
    b?;
    c?;
    Ok(numbers)
}

#[test]
fn one_thread_makes_every_call(rt: HostRuntime) -> Result<(), Fail> {
    let numbers = write_alone(&rt, rt.alloc())?;
    let lines = [(1, 30), (0, 10), (2, 20)].map(|(seat, number)| Line { seat, number });
    assert_eq!(rt; numbers.lines.as_slice(), lines.as_slice());
    Ok(())
}
