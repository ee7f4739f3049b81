//! The ways of jumps by CY, by a byte, and by a counter.

ghost use Rattle.std.specs.Prelude.{◌≡◌, IfOk};
ghost use Rattle.mcs51_branch.specs.Jumps as cuts;
ghost use Rattle.mcs51_jumps.specs.Jumps as jumps;

use entry_value::{Byte, Cells};
use mcs51_branch::{Operand, compare_with, cut_by_comparison, cut_by_condition, lowered};
use mcs51_decode::{Comparison, Condition, Counter, Working, number_of_register};
use mcs51_state::{
    Addresses, Compared, State, addresses_of, direct_addresses, pointed_addresses, ram_values,
    read_byte, register_addresses, write_byte,
};
use no_memory::Memory;
use std::alloc::Global;
use std::marker::Model;
use value_set::Vs8;

/// What is known behind a jump, where that can be.
#[derive(Drop)]
pub struct Ways<M: Cells> {
    /// Where it isn't taken.
    pub on: Option<State<M>>,
    /// Where it is.
    pub jumped: Option<State<M>>,
}

impl<M: Cells> Model for Ways<M> {
    ghost use Rattle.mcs51_jumps.specs.Jumps.{Ways as KnownWays};

    ghost Value = { KnownWays };

    ghost view = { λ ways. record { on = ways.on; jumped = ways.jumped } };
}

/// What is known where a condition leads this way, if that can be.
fn way_on_condition<M: Cells>(
    alloc: Global,
    state: &State<M>,
    condition: Condition,
    taken: bool,
) -> Result<Option<State<M>>, Memory>
    ensures { IfOk result (λ way. way ≡ cuts.condition_cut condition taken state.now) }
{
    let mut way = state.copy(alloc)?;
    if cut_by_condition(&mut way, condition, taken)? {
        return Ok(Some(way));
    }
    Ok(None)
}

/// The ways of JC, JNC, JZ, JNZ and SJMP.
#[tactic(auto, unfolding(crate::specs::Jumps::ways_on_condition))]
pub fn ways_on_condition<M: Cells>(
    alloc: Global,
    state: &State<M>,
    condition: Condition,
) -> Result<Ways<M>, Memory>
    ensures { IfOk result (λ ways. ways ≡ jumps.ways_on_condition condition state.now) }
{
    Ok(Ways {
        on: way_on_condition(alloc, state, condition, false)?,
        jumped: way_on_condition(alloc, state, condition, true)?,
    })
}

/// Where `@Ri` or Rn may stand in RAM.
fn working_set<M: Cells>(state: &State<M>, working: Working) -> Vs8
    ensures { result ≡ jumps.working_set state.now working }
{
    match working {
        Working::Indirect(pointer) => pointed_addresses(state, pointer),
        Working::Register(register) => register_addresses(state, number_of_register(register)),
    }
}

/// The operand of CJNE that stands at one of some addresses.
fn operand_at<M: Cells>(state: &State<M>, at: &Vs8) -> Operand
    ensures { result ≡ jumps.operand_at state.now at.now }
{
    if at.count() == 1 {
        return Operand::One(Compared::Ram(at.nth(0)));
    }
    Operand::Several(ram_values(state, at))
}

/// What is known where CJNE with a constant leads this way, if that can be.
fn way_by_constant<M: Cells>(
    alloc: Global,
    state: &State<M>,
    operand: &Operand,
    value: u8,
    taken: bool,
) -> Result<Option<State<M>>, Memory>
    ensures { IfOk result (λ way. way ≡ cuts.comparison_cut operand.now value taken state.now) }
{
    let mut way = state.copy(alloc)?;
    if cut_by_comparison(&mut way, operand, value, taken)? {
        return Ok(Some(way));
    }
    Ok(None)
}

/// The ways of CJNE with a constant.
fn constant_ways<M: Cells>(
    alloc: Global,
    state: &State<M>,
    operand: &Operand,
    value: u8,
) -> Result<Ways<M>, Memory>
    ensures { IfOk result (λ ways. ways ≡ jumps.constant_ways operand.now value state.now) }
{
    Ok(Ways {
        on: way_by_constant(alloc, state, operand, value, false)?,
        jumped: way_by_constant(alloc, state, operand, value, true)?,
    })
}

/// The ways of `CJNE A,dir`, which go on alike.
fn both_ways<M: Cells>(alloc: Global, state: &State<M>, set: &Vs8) -> Result<Ways<M>, Memory>
    ensures { IfOk result (λ ways. ways ≡ jumps.both_ways (cuts.compared_with set.now state.now)) }
{
    let mut way = state.copy(alloc)?;
    compare_with(&mut way, set);
    Ok(Ways {
        on: Some(way.copy(alloc)?),
        jumped: Some(way),
    })
}

/// The ways of CJNE.
#[tactic(auto, unfolding(crate::specs::Jumps::ways_by_comparison))]
pub fn ways_by_comparison<M: Cells>(
    alloc: Global,
    framed: bool,
    state: &State<M>,
    comparison: Comparison,
) -> Result<Ways<M>, Memory>
    ensures { IfOk result (λ ways. ways ≡ jumps.ways_by_comparison framed comparison state.now) }
{
    match comparison {
        Comparison::AccumulatorImmediate(value) => {
            constant_ways(alloc, state, &Operand::One(Compared::Accumulator), value)
        }
        Comparison::AccumulatorDirect(direct) => {
            let byte = read_byte(framed, state, &direct_addresses(direct));
            both_ways(alloc, state, &byte.set)
        }
        Comparison::WorkingImmediate { operand, value } => {
            let operand = operand_at(state, &working_set(state, operand));
            constant_ways(alloc, state, &operand, value)
        }
    }
}

/// The byte that DJNZ lowers.
pub(crate) fn counted(counter: Counter) -> mcs51_decode::Memory
    ensures { result ≡ jumps.counted counter }
{
    match counter {
        Counter::Direct(direct) => mcs51_decode::Memory::Direct(direct),
        Counter::Register(register) => mcs51_decode::Memory::Working(Working::Register(register)),
    }
}

/// A state with the byte at one of some addresses written.
fn written<M: Cells>(
    alloc: Global,
    framed: bool,
    state: &State<M>,
    at: &Addresses,
    set: Vs8,
) -> Result<State<M>, Memory>
    ensures { IfOk result (λ way. way ≡ jumps.set_written framed at.now state.now set) }
{
    let mut way = state.copy(alloc)?;
    write_byte(framed, &mut way, at, &Byte { set, entry: None })?;
    Ok(way)
}

/// What is known where DJNZ leads this way, if that can be.
fn way_by_counter<M: Cells>(
    alloc: Global,
    framed: bool,
    state: &State<M>,
    at: &Addresses,
    taken: bool,
) -> Result<Option<State<M>>, Memory>
    ensures { IfOk result (λ way. way ≡ jumps.lowered_at framed at.now taken state.now) }
{
    match lowered(&read_byte(framed, state, at).set, taken) {
        Some(set) => Ok(Some(written(alloc, framed, state, at, set)?)),
        None => Ok(None),
    }
}

/// The ways of DJNZ.
#[tactic(auto, unfolding(crate::specs::Jumps::ways_by_counter))]
pub fn ways_by_counter<M: Cells>(
    alloc: Global,
    framed: bool,
    state: &State<M>,
    counter: Counter,
) -> Result<Ways<M>, Memory>
    ensures { IfOk result (λ ways. ways ≡ jumps.ways_by_counter framed counter state.now) }
{
    let at = addresses_of(state, counted(counter));
    Ok(Ways {
        on: way_by_counter(alloc, framed, state, &at, false)?,
        jumped: way_by_counter(alloc, framed, state, &at, true)?,
    })
}
