//! Instructions that write the accumulator.

ghost use Rattle.std.specs.Prelude.{◌≡◌, ◌++◌, OnOk};
ghost use Rattle.mcs51_alu.specs.Accumulator as accumulator;

use crate::linear::{added_fact, gathered_by, loaded_fact};
use call_context::{Item, Sequence};
use entry_value::{Byte, Cells};
use mcs51_decode::{AccumulatorOperation, Memory, Operation, Source};
use mcs51_results::{
    Made, Operand, accumulated_made, changed_made, decreased, increased, twice_made,
};
use mcs51_state::{CarryFact, Compared, LinearFact, State, addresses_of, read_byte, show_read};
use value_set::Vs8;

/// What is left of the fact of CY behind a write of the accumulator.
fn carry_left(sets_carry: bool, fact: &Option<CarryFact>) -> Option<CarryFact>
    ensures { result ≡ accumulator.carry_left sets_carry fact.now }
{
    if sets_carry {
        return None;
    }
    match fact {
        Some(
            CarryFact {
                compared: Compared::Ram(_),
                ..
            },
        ) => *fact,
        _ => None,
    }
}

/// Writes the accumulator and PSW, with what the accumulator is by a byte.
fn write<M: Cells>(state: &mut State<M>, made: &Made, sets_carry: bool, fact: Option<LinearFact>)
    ensures { state.new ≡ accumulator.with_made made.now sets_carry fact state.old }
{
    state.a = made.a;
    state.psw = made.psw;
    state.linear_fact = fact;
    state.carry_fact = carry_left(sets_carry, &state.carry_fact);
}

/// Writes the accumulator alone.
fn write_byte<M: Cells>(state: &mut State<M>, byte: Byte, fact: Option<LinearFact>)
    ensures { state.new ≡ accumulator.with_byte byte fact state.old }
{
    let made = Made {
        a: byte,
        psw: state.psw,
    };
    write(state, &made, false, fact);
}

/// MOV A of an operand.
#[tactic(auto, unfolding(crate::specs::Accumulator::loaded))]
pub fn load<M: Cells>(framed: bool, state: &mut State<M>, memory: Memory)
    ensures { state.new ≡ accumulator.loaded framed memory state.old }
{
    let addresses = addresses_of(state, memory);
    let byte = read_byte(framed, state, &addresses);
    write_byte(state, byte, loaded_fact(&addresses));
}

/// MOV A of a number.
#[tactic(auto, unfolding(crate::specs::Accumulator::immediate))]
pub fn load_immediate<M: Cells>(state: &mut State<M>, value: u8)
    ensures { state.new ≡ accumulator.immediate value state.old }
{
    let byte = Byte {
        set: Vs8::one(value),
        entry: None,
    };
    write_byte(state, byte, None);
}

/// INC A, or DEC A.
#[tactic(auto, unfolding(crate::specs::Accumulator::counted))]
pub fn count<M: Cells>(state: &mut State<M>, up: bool)
    ensures { state.new ≡ accumulator.counted up state.old }
{
    let byte = if up {
        increased(&state.a)
    } else {
        decreased(&state.a)
    };
    write_byte(state, byte, None);
}

/// The second operand.
fn operand_of<M: Cells>(framed: bool, state: &State<M>, origin: &Source) -> Operand
    ensures { result ≡ accumulator.operand_of framed state.now origin.now }
{
    match origin {
        Source::Immediate(value) => Operand::Constant(*value),
        Source::Memory(memory) => {
            Operand::Among(read_byte(framed, state, &addresses_of(state, *memory)).set)
        }
    }
}

/// Whether the operand is ACC.
fn is_itself(origin: &Source) -> bool
    ensures { result ≡ accumulator.is_itself origin.now }
{
    matches!(origin, Source::Memory(Memory::Direct(0xE0)))
}

/// Whether an operation sets CY.
fn sets_carry(operation: Operation) -> bool
    ensures { result ≡ accumulator.sets_carry operation }
{
    matches!(
        operation,
        Operation::Add | Operation::Addc | Operation::Subb
    )
}

fn is_add(operation: Operation) -> bool
    ensures { result ≡ accumulator.is_add operation }
{
    matches!(operation, Operation::Add)
}

/// What an operation makes of the accumulator and of PSW: ADD of ACC doubles it.
fn made_of<M: Cells>(framed: bool, operation: Operation, origin: &Source, state: &State<M>) -> Made
    ensures { result ≡ accumulator.made_of framed operation origin.now state.now }
{
    if is_itself(origin) && is_add(operation) {
        return twice_made(&state.a, &state.psw);
    }
    let operand = operand_of(framed, state, origin);
    accumulated_made(operation, &state.a, &operand, &state.psw)
}

/// ADD, ADDC, SUBB, ORL, ANL or XRL of the accumulator and a byte.
#[tactic(auto, unfolding(crate::specs::Accumulator::accumulated_known))]
pub fn accumulate<M: Cells>(
    framed: bool,
    state: &mut State<M>,
    operation: Operation,
    origin: &Source,
)
    ensures { state.new ≡ accumulator.accumulated_known framed operation origin.now state.old }
{
    let fact = added_fact(operation, state, origin);
    let made = made_of(framed, operation, origin, state);
    let gathered = Made {
        a: gathered_by(state, &fact, made.a),
        psw: made.psw,
    };
    write(state, &gathered, sets_carry(operation), fact);
}

/// Whether an operation on the accumulator alone sets CY.
fn changes_carry(operation: AccumulatorOperation) -> bool
    ensures { result ≡ accumulator.changes_carry operation }
{
    matches!(
        operation,
        AccumulatorOperation::Rrc | AccumulatorOperation::Rlc | AccumulatorOperation::Da
    )
}

/// An operation on the accumulator alone.
#[tactic(auto, unfolding(crate::specs::Accumulator::changed_known))]
pub fn change<M: Cells>(state: &mut State<M>, operation: AccumulatorOperation)
    ensures { state.new ≡ accumulator.changed_known operation state.old }
{
    let made = changed_made(operation, &state.a, &state.psw);
    write(state, &made, changes_carry(operation), None);
}

/// Adds the accesses to the second operand of [`accumulate`]. Behind an error the items are of no use.
pub fn show_source<M: Cells>(
    items: &mut Sequence<Item>,
    pc: u16,
    state: &State<M>,
    origin: &Source,
) -> Result<(), no_memory::Memory>
    ensures { OnOk result (items.new ≡ items.old ++ accumulator.source_items pc state.now origin.now) }
{
    match origin {
        Source::Immediate(_) => Ok(()),
        Source::Memory(memory) => show_read(items, pc, state, *memory),
    }
}
