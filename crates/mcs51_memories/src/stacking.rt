//! PUSH and POP.

ghost use Rattle.std.specs.Prelude.{◌≡◌, ◌++◌, OnOk};
ghost use Rattle.mcs51_state.specs.Known.{byte_of};
ghost use Rattle.mcs51_memories.specs.Stacking as stacking;

use call_context::{Item, Sequence};
use entry_value::{Byte, Cells};
use mcs51_state::{
    Addresses, State, access, direct_addresses, pop_byte, push_byte, read_byte, stack_top,
    write_byte,
};
use no_memory::Memory;
use value_set::Vs8;

/// The direct address of SP.
const SP: u8 = 0x81;

/// A byte without a relation.
fn plain(set: Vs8) -> Byte
    ensures { result ≡ byte_of set }
{
    Byte { set, entry: None }
}

/// The byte that PUSH stores: of SP the raised one too.
fn pushed_byte<M: Cells>(framed: bool, state: &State<M>, direct: u8) -> Byte
    ensures { result ≡ stacking.pushed_byte framed direct state.now }
{
    if direct == SP {
        return plain(state.sp.join(&state.sp.add(&Vs8::one(1))));
    }
    read_byte(framed, state, &direct_addresses(direct))
}

/// PUSH. Behind an error the state is of no use.
#[tactic(auto, unfolding(crate::specs::Stacking::pushed_known))]
pub fn push<M: Cells>(framed: bool, state: &mut State<M>, direct: u8) -> Result<(), Memory>
    ensures { OnOk result (state.new ≡ stacking.pushed_known framed direct state.old) }
{
    let byte = pushed_byte(framed, state, direct);
    push_byte(framed, state, &byte)
}

/// Adds the accesses of PUSH. Behind an error the items are of no use.
pub fn show_push<M: Cells>(
    items: &mut Sequence<Item>,
    pc: u16,
    state: &State<M>,
    direct: u8,
) -> Result<(), Memory>
    ensures { OnOk result (items.new ≡ items.old ++ stacking.push_items pc direct state.now) }
{
    items.push(access(pc, false, &direct_addresses(direct)))?;
    let top = Addresses::InRam(state.sp.add(&Vs8::one(1)));
    items.push(access(pc, true, &top))?;
    Ok(())
}

/// The byte that POP leaves: in SP one less too.
fn popped_byte<M: Cells>(framed: bool, state: &State<M>, direct: u8) -> Byte
    ensures { result ≡ stacking.popped_byte framed direct state.now }
{
    let top = read_byte(framed, state, &stack_top(state));
    if direct == SP {
        return plain(top.set.join(&top.set.sub(&Vs8::one(1))));
    }
    top
}

/// POP. Behind an error the state is of no use.
#[tactic(auto, unfolding(crate::specs::Stacking::popped_known))]
pub fn pop<M: Cells>(framed: bool, state: &mut State<M>, direct: u8) -> Result<(), Memory>
    ensures { OnOk result (state.new ≡ stacking.popped_known framed direct state.old) }
{
    let byte = popped_byte(framed, state, direct);
    pop_byte(state);
    write_byte(framed, state, &direct_addresses(direct), &byte)
}

/// Adds the accesses of POP. Behind an error the items are of no use.
pub fn show_pop<M: Cells>(
    items: &mut Sequence<Item>,
    pc: u16,
    state: &State<M>,
    direct: u8,
) -> Result<(), Memory>
    ensures { OnOk result (items.new ≡ items.old ++ stacking.pop_items pc direct state.now) }
{
    items.push(access(pc, false, &stack_top(state)))?;
    items.push(access(pc, true, &direct_addresses(direct)))?;
    Ok(())
}
