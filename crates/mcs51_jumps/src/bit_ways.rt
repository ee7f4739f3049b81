//! The ways of jumps by a bit.

ghost use Rattle.std.specs.Prelude.{◌≡◌, IfOk};
ghost use Rattle.mcs51_jumps.specs.Jumps as jumps;

use crate::changing::change_bit;
use crate::ways::Ways;
use entry_value::Cells;
use mcs51_branch::cut_by_bit;
use mcs51_chip::bit_address;
use mcs51_decode::{BitOperation, BitTest};
use mcs51_state::State;
use no_memory::Memory;
use std::alloc::Global;

/// What is known where a bit is set, or is clear, if that can be.
fn where_bit<M: Cells>(
    alloc: Global,
    state: &State<M>,
    bit: u8,
    flag: bool,
) -> Result<Option<State<M>>, Memory>
    ensures { IfOk result (λ way. way ≡ jumps.where_bit bit flag state.now) }
{
    let mut way = state.copy(alloc)?;
    if cut_by_bit(&mut way, bit_address(bit), bit % 8, flag)? {
        return Ok(Some(way));
    }
    Ok(None)
}

/// The ways of a jump that is taken where a bit is set, or is clear.
fn tested_ways<M: Cells>(
    alloc: Global,
    state: &State<M>,
    bit: u8,
    flag: bool,
) -> Result<Ways<M>, Memory>
    ensures { IfOk result (λ ways. ways ≡ jumps.tested_ways bit flag state.now) }
{
    Ok(Ways {
        on: where_bit(alloc, state, bit, !flag)?,
        jumped: where_bit(alloc, state, bit, flag)?,
    })
}

/// What is known where JBC jumps, if that can be.
fn where_cleared<M: Cells>(
    alloc: Global,
    framed: bool,
    state: &State<M>,
    bit: u8,
) -> Result<Option<State<M>>, Memory>
    ensures { IfOk result (λ way. way ≡ jumps.where_cleared framed bit state.now) }
{
    match where_bit(alloc, state, bit, true)? {
        Some(way) => {
            let mut way = way;
            change_bit(framed, &mut way, BitOperation::Clr, bit)?;
            Ok(Some(way))
        }
        None => Ok(None),
    }
}

/// The ways of JB, JNB and JBC.
#[tactic(auto, unfolding(crate::specs::Jumps::ways_on_bit))]
pub fn ways_on_bit<M: Cells>(
    alloc: Global,
    framed: bool,
    state: &State<M>,
    test: BitTest,
    bit: u8,
) -> Result<Ways<M>, Memory>
    ensures { IfOk result (λ ways. ways ≡ jumps.ways_on_bit framed test bit state.now) }
{
    match test {
        BitTest::Set => tested_ways(alloc, state, bit, true),
        BitTest::Clear => tested_ways(alloc, state, bit, false),
        BitTest::SetAndClear => Ok(Ways {
            on: where_bit(alloc, state, bit, false)?,
            jumped: where_cleared(alloc, framed, state, bit)?,
        }),
    }
}
