//! The accesses of MOV of a direct byte.

ghost use Rattle.std.specs.Prelude.{◌≡◌, ◌++◌, OnOk};
ghost use Rattle.mcs51_moves.specs.Moves as moves;

use call_context::{Item, Sequence};
use entry_value::Cells;
use mcs51_decode::Working;
use mcs51_state::{State, access, direct_addresses, show_pointer, show_read, working_addresses};
use no_memory::Memory;

/// Adds the accesses of MOV to a direct byte. Behind an error the items are of no use.
pub fn show_move_to_direct<M: Cells>(
    accesses: &mut Sequence<Item>,
    pc: u16,
    state: &State<M>,
    to: u8,
    from: mcs51_decode::Memory,
) -> Result<(), Memory>
    ensures { OnOk result (accesses.new ≡ accesses.old ++ moves.to_direct_items pc state.now to from) }
{
    show_read(accesses, pc, state, from)?;
    accesses.push(access(pc, true, &direct_addresses(to)))?;
    Ok(())
}

/// Adds the accesses of MOV from a direct byte. Behind an error the items are of no use.
pub fn show_move_from_direct<M: Cells>(
    accesses: &mut Sequence<Item>,
    pc: u16,
    state: &State<M>,
    to: Working,
    from: u8,
) -> Result<(), Memory>
    ensures { OnOk result (accesses.new ≡ accesses.old ++ moves.from_direct_items pc state.now to from) }
{
    show_pointer(accesses, pc, state, to)?;
    accesses.push(access(pc, false, &direct_addresses(from)))?;
    accesses.push(access(pc, true, &working_addresses(state, to)))?;
    Ok(())
}
