//! MOVX.

ghost use Rattle.std.specs.Prelude.{◌≡◌, ◌++◌, OnOk};
ghost use Rattle.mcs51_memories.specs.Externals as externals;

use call_context::{Item, Sequence, Set, Space};
use entry_value::{Byte, Cells};
use mcs51_decode::{External, Working};
use mcs51_state::{State, pointed_addresses, set_accumulator, show_pointer};
use no_memory::Memory;
use value_bits::w16;
use value_set::{Vs8, Vs16};

/// MOVX to the accumulator.
#[tactic(auto, unfolding(crate::specs::Externals::external_loaded))]
pub fn load_external<M: Cells>(state: &mut State<M>)
    ensures { state.new ≡ externals.external_loaded state.old }
{
    let byte = Byte {
        set: Vs8::any(),
        entry: None,
    };
    set_accumulator(state, &byte);
}

/// Where MOVX may read or write.
fn external_addresses<M: Cells>(state: &State<M>, external: External) -> Vs16
    ensures { result ≡ externals.external_addresses external state.now }
{
    match external {
        External::DataPointer => w16::pair(&state.dpl.set, &state.dph.set),
        External::Indirect(pointer) => {
            w16::pair(&pointed_addresses(state, pointer), &Vs8::any())
        }
    }
}

/// Adds the read of the register of `@Ri`. Behind an error the items are of no use.
fn show_register<M: Cells>(
    items: &mut Sequence<Item>,
    pc: u16,
    state: &State<M>,
    external: External,
) -> Result<(), Memory>
    ensures { OnOk result (items.new ≡ items.old ++ externals.register_items pc external state.now) }
{
    match external {
        External::DataPointer => Ok(()),
        External::Indirect(pointer) => show_pointer(items, pc, state, Working::Indirect(pointer)),
    }
}

/// Adds the accesses of MOVX. Behind an error the items are of no use.
pub fn show_external<M: Cells>(
    items: &mut Sequence<Item>,
    pc: u16,
    write: bool,
    state: &State<M>,
    external: External,
) -> Result<(), Memory>
    ensures { OnOk result (items.new ≡ items.old ++ externals.external_items pc write external state.now) }
{
    show_register(items, pc, state, external)?;
    items.push(Item::Access {
        pc,
        space: Space::Xram,
        write,
        size: 1,
        at: Set::W(external_addresses(state, external)),
    })?;
    Ok(())
}
