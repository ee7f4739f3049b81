//! Two seats at a book of one location.

ghost use Rattle.std.specs.Prelude.{◌≡◌, false, Some};
ghost use Rattle.fact_table.specs.Named.{table_of};

use crate::books::{Sizes, sizes_of};
use crate::chip::of_shape;
use crate::shape::Shape;
use chip_analysis::Chip;
use fact_table::{FactTable, Seat};
use no_memory::Memory;
use round_core::{Book, Claimed, Done};
use std::alloc::Global;
use std::sync::Wait;
use std::test::Fail;

/// Claims a unit, and gives it back or posts its work. False says that there was none.
fn take_turn<R: Wait, C: Chip>(
    rt: &R,
    alloc: Global,
    chip: &C,
    table: &FactTable<C>,
    seat: &mut Seat<C>,
    in_vain: bool,
) -> Result<bool, Memory>
    requires table { seat.old.table ≡ table_of table.now }
    requires idle { seat.old.holds ≡ false }
    requires chip { Some (C.base chip.now) ≡ seat.old.base }
    ensures { (seat.new.table ≡ seat.old.table) × (seat.new.holds ≡ false) × (seat.new.base ≡ seat.old.base) × (seat.new.stands ≡ seat.old.stands) × (seat.new.made ≡ seat.old.made) }
{
    match table.claim(rt, chip, seat)? {
        Claimed::Ticket(ticket) => {
            if in_vain {
                table.give_back(rt, seat, ticket);
                return Ok(true);
            }
            let work = chip.work(alloc, ticket.unit(), ticket.at(), ticket.exit())?;
            match table.post(rt, chip, seat, Done { ticket, work }) {
                Ok(()) => Ok(true),
                Err((memory, _)) => Err(memory),
            }
        }
        Claimed::Idle | Claimed::Finished => Ok(false),
    }
}

/// One seat gives the only unit back, and the other posts its work. It answers the book's sizes, and whether each turn had a unit.
fn shared<R: Wait, C: Chip>(
    rt: &R,
    alloc: Global,
    chip: &C,
) -> Result<(Sizes, [Option<bool>; 3]), Memory> {
    let book = Book::open(alloc, chip)?;
    let (table, mut first) = FactTable::new(alloc, book, 2)?;
    let mut second = table.split(&mut first);
    let in_vain = take_turn(rt, alloc, chip, &table, &mut second, true);
    let worked = take_turn(rt, alloc, chip, &table, &mut first, false);
    let none = take_turn(rt, alloc, chip, &table, &mut second, false);
    table.join(&mut second, first);
    let sizes = sizes_of(table.close(second));
    Ok((sizes, [in_vain.ok(), worked.ok(), none.ok()]))
}

#[test]
fn two_seats_share_a_book(rt: HostRuntime) -> Result<(), Fail> {
    let found = shared(&rt, rt.alloc(), &of_shape(Shape::Chain(0)))?;
    let turns = [Some(true), Some(true), Some(false)];
    assert_eq!(rt; found, ((true, 1, 1, 4), turns));
    Ok(())
}
