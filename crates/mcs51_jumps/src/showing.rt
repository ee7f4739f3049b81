//! The accesses of jumps.

ghost use Rattle.std.specs.Prelude.{◌≡◌, ◌++◌, OnOk};
ghost use Rattle.mcs51_jumps.specs.Jumps as jumps;

use crate::ways::counted;
use call_context::{Item, Sequence};
use entry_value::Cells;
use mcs51_decode::{BitTest, Comparison, Counter};
use mcs51_state::{State, access, bit_addresses, show_read, show_update, show_update_at};
use no_memory::Memory;

/// Adds the read of JB and JNB. Behind an error the items are of no use.
fn show_test(accesses: &mut Sequence<Item>, pc: u16, bit: u8) -> Result<(), Memory>
    ensures { OnOk result (accesses.new ≡ accesses.old ++ jumps.read_of pc bit) }
{
    accesses.push(access(pc, false, &bit_addresses(bit)))?;
    Ok(())
}

/// Adds the accesses of JBC: it writes where it jumps alone, if that can be.
fn show_clearing<M: Cells>(
    accesses: &mut Sequence<Item>,
    pc: u16,
    bit: u8,
    jumped: &Option<State<M>>,
) -> Result<(), Memory>
    ensures { OnOk result (accesses.new ≡ accesses.old ++ jumps.clearing_items pc bit jumped.now) }
{
    match jumped {
        None => show_test(accesses, pc, bit),
        Some(_) => show_update_at(accesses, pc, &bit_addresses(bit)),
    }
}

/// Adds the accesses of JB, JNB and JBC, by what is known where it jumps. Behind an error the items are of no use.
pub fn show_bit<M: Cells>(
    accesses: &mut Sequence<Item>,
    pc: u16,
    test: BitTest,
    bit: u8,
    jumped: &Option<State<M>>,
) -> Result<(), Memory>
    ensures { OnOk result (accesses.new ≡ accesses.old ++ jumps.bit_items pc test bit jumped.now) }
{
    match test {
        BitTest::Set | BitTest::Clear => show_test(accesses, pc, bit),
        BitTest::SetAndClear => show_clearing(accesses, pc, bit, jumped),
    }
}

/// Adds the accesses of CJNE. Behind an error the items are of no use.
pub fn show_comparison<M: Cells>(
    accesses: &mut Sequence<Item>,
    pc: u16,
    state: &State<M>,
    comparison: Comparison,
) -> Result<(), Memory>
    ensures { OnOk result (accesses.new ≡ accesses.old ++ jumps.comparison_items pc comparison state.now) }
{
    match comparison {
        Comparison::AccumulatorImmediate(_) => Ok(()),
        Comparison::AccumulatorDirect(direct) => {
            show_read(accesses, pc, state, mcs51_decode::Memory::Direct(direct))
        }
        Comparison::WorkingImmediate { operand, .. } => {
            show_read(accesses, pc, state, mcs51_decode::Memory::Working(operand))
        }
    }
}

/// Adds the accesses of DJNZ. Behind an error the items are of no use.
pub fn show_counter<M: Cells>(
    accesses: &mut Sequence<Item>,
    pc: u16,
    state: &State<M>,
    counter: Counter,
) -> Result<(), Memory>
    ensures { OnOk result (accesses.new ≡ accesses.old ++ jumps.counter_items pc counter state.now) }
{
    show_update(accesses, pc, state, counted(counter))
}
