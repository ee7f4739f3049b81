//! The accesses of instructions.

ghost use Rattle.std.specs.Prelude.{◌≡◌, ◌++◌, OnOk};
ghost use Rattle.mcs51_flow.specs.Running as running;

use call_context::{Item, Sequence};
use entry_value::Cells;
use mcs51_alu::show_source;
use mcs51_control::{show_call, show_return};
use mcs51_decode::{Instr, Place, Working};
use mcs51_memories::{show_code, show_external, show_pop, show_push};
use mcs51_moves::{show_move_from_direct, show_move_to_direct};
use mcs51_state::{
    State, access, bit_addresses, direct_addresses, show_read, show_update, show_update_at,
    show_write,
};
use no_memory::Memory;

/// Adds the accesses of an instruction that is no conditional jump, by the following address. Behind an error the items are of no
/// use.
#[tactic(auto, unfolding(crate::specs::Running::items_of))]
pub(crate) fn show<M: Cells>(
    items: &mut Sequence<Item>,
    pc: u16,
    next: u16,
    at: &State<M>,
    instr: &Instr,
) -> Result<(), Memory>
    ensures { OnOk result (items.new ≡ items.old ++ running.items_of pc next at.now instr.now) }
{
    match *instr {
        Instr::AbsoluteCall(_) | Instr::LongCall(_) => show_call(items, pc, at),
        Instr::Return | Instr::ReturnFromInterrupt => show_return(items, pc, at),
        Instr::Increment(Place::Memory(operand)) | Instr::Decrement(Place::Memory(operand)) => {
            show_update(items, pc, at, operand)
        }
        Instr::Accumulate { source, .. } => show_source(items, pc, at, &source),
        Instr::DirectLogic { direct, .. } => show_update_at(items, pc, &direct_addresses(direct)),
        Instr::CarryBit { bit, .. } => {
            items.push(access(pc, false, &bit_addresses(bit)))?;
            Ok(())
        }
        Instr::ChangeBit { bit, .. } => show_update_at(items, pc, &bit_addresses(bit)),
        Instr::MoveImmediate {
            to: Place::Memory(to),
            ..
        } => show_write(items, pc, at, to),
        Instr::MoveToDirect { to, from } => show_move_to_direct(items, pc, at, to, from),
        Instr::MoveFromDirect { to, from } => show_move_from_direct(items, pc, at, to, from),
        Instr::Load(from) => show_read(items, pc, at, from),
        Instr::Store(to) => show_write(items, pc, at, to),
        Instr::MoveCode(base) => show_code(items, pc, at, base, next),
        Instr::ReadExternal(external) => show_external(items, pc, false, at, external),
        Instr::WriteExternal(external) => show_external(items, pc, true, at, external),
        Instr::Push(direct) => show_push(items, pc, at, direct),
        Instr::Pop(direct) => show_pop(items, pc, at, direct),
        Instr::Exchange(with) => show_update(items, pc, at, with),
        Instr::ExchangeDigit(with) => show_update(
            items,
            pc,
            at,
            mcs51_decode::Memory::Working(Working::Indirect(with)),
        ),
        _ => Ok(()),
    }
}
