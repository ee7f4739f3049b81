//! What is known behind instructions.

ghost use Rattle.std.specs.Prelude.{◌≡◌, OnOk};
ghost use Rattle.mcs51_flow.specs.Running as running;

use entry_value::Cells;
use mcs51_alu::{accumulate, change, count, load, load_immediate};
use mcs51_control::{return_from, return_from_interrupt};
use mcs51_decode::{Image, Instr, Place};
use mcs51_jumps::{change_bit, change_carry, join_carry};
use mcs51_memories::{
    divide, increment_data_pointer, load_code, load_data_pointer, load_external, multiply, pop,
    push,
};
use mcs51_moves::{
    decrement, exchange, exchange_digit, increment, mask_direct, move_from_direct, move_immediate,
    move_to_direct, store,
};
use mcs51_state::{State, push_address};
use no_memory::Memory;

/// Changes what is known as an instruction does that is no conditional jump, by the following address. Behind an error the state
/// is of no use.
#[tactic(auto, unfolding(crate::specs::Running::behind_of))]
pub(crate) fn pass<M: Cells>(
    image: &Image,
    framed: bool,
    next: u16,
    state: &mut State<M>,
    instr: &Instr,
) -> Result<(), Memory>
    ensures { OnOk result (state.new ≡ running.behind_of image.now framed next state.old instr.now) }
{
    match *instr {
        Instr::AbsoluteCall(_) | Instr::LongCall(_) => push_address(framed, state, next),
        Instr::Return => {
            return_from(state);
            Ok(())
        }
        Instr::ReturnFromInterrupt => {
            return_from_interrupt(state);
            Ok(())
        }
        Instr::ChangeAccumulator(operation) => {
            change(state, operation);
            Ok(())
        }
        Instr::Increment(Place::Accumulator) => {
            count(state, true);
            Ok(())
        }
        Instr::Increment(Place::Memory(operand)) => increment(framed, state, operand),
        Instr::Decrement(Place::Accumulator) => {
            count(state, false);
            Ok(())
        }
        Instr::Decrement(Place::Memory(operand)) => decrement(framed, state, operand),
        Instr::Accumulate { operation, source } => {
            accumulate(framed, state, operation, &source);
            Ok(())
        }
        Instr::IncrementDataPointer => {
            increment_data_pointer(state);
            Ok(())
        }
        Instr::DirectLogic {
            operation,
            direct,
            mask,
        } => mask_direct(framed, state, operation, direct, mask),
        Instr::Multiply => {
            multiply(state);
            Ok(())
        }
        Instr::Divide => {
            divide(state);
            Ok(())
        }
        Instr::ChangeCarry(operation) => {
            change_carry(state, operation);
            Ok(())
        }
        Instr::CarryBit { operation, bit } => {
            join_carry(state, operation, bit);
            Ok(())
        }
        Instr::ChangeBit { operation, bit } => change_bit(framed, state, operation, bit),
        Instr::MoveImmediate {
            to: Place::Accumulator,
            value,
        } => {
            load_immediate(state, value);
            Ok(())
        }
        Instr::MoveImmediate {
            to: Place::Memory(to),
            value,
        } => move_immediate(framed, state, to, value),
        Instr::MoveToDirect { to, from } => move_to_direct(framed, state, to, from),
        Instr::MoveFromDirect { to, from } => move_from_direct(framed, state, to, from),
        Instr::LoadDataPointer(value) => {
            load_data_pointer(state, value);
            Ok(())
        }
        Instr::Load(from) => {
            load(framed, state, from);
            Ok(())
        }
        Instr::Store(to) => store(framed, state, to),
        Instr::MoveCode(base) => {
            load_code(image, state, base, next);
            Ok(())
        }
        Instr::ReadExternal(_) => {
            load_external(state);
            Ok(())
        }
        Instr::Push(direct) => push(framed, state, direct),
        Instr::Pop(direct) => pop(framed, state, direct),
        Instr::Exchange(with) => exchange(framed, state, with),
        Instr::ExchangeDigit(with) => exchange_digit(framed, state, with),
        _ => Ok(()),
    }
}
