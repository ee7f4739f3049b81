//! The accesses to operands that are shown.

ghost use Rattle.std.specs.Prelude.{◌≡◌, ◌++◌, OnOk};
ghost use Rattle.mcs51_state.specs.Accesses as shown;
ghost use Rattle.mcs51_state.specs.Showing as showing;

use crate::addresses::Addresses;
use crate::operands::{addresses_of, register_addresses};
use crate::state::State;
use call_context::{Item, Sequence, Set, Space};
use entry_value::Cells;
use mcs51_decode::{Working, number_of_pointer};
use no_memory::Memory;
use value_set::Vs8;

/// The access of an instruction at an address to a byte at one of some addresses.
pub fn access(pc: u16, write: bool, addresses: &Addresses) -> Item
    ensures { result ≡ showing.access_of pc write addresses.now }
{
    let (space, at) = match addresses {
        Addresses::InRam(set) => (Space::Ram, *set),
        Addresses::InSfr(register) => (Space::Sfr, Vs8::one(*register)),
    };
    Item::Access {
        pc,
        space,
        write,
        size: 1,
        at: Set::B(at),
    }
}

/// Adds the read of the register of `@Ri`. Behind an error the items are of no use.
pub fn show_pointer<M: Cells>(
    accesses: &mut Sequence<Item>,
    pc: u16,
    state: &State<M>,
    working: Working,
) -> Result<(), Memory>
    ensures { OnOk result (accesses.new ≡ accesses.old ++ showing.pointer_accesses pc state.now working) }
{
    if let Working::Indirect(pointer) = working {
        let at = register_addresses(state, number_of_pointer(pointer));
        accesses.push(access(pc, false, &Addresses::InRam(at)))?;
    }
    Ok(())
}

/// Adds the read of the register of an operand `@Ri`. Behind an error the items are of no use.
pub fn show_address<M: Cells>(
    accesses: &mut Sequence<Item>,
    pc: u16,
    state: &State<M>,
    memory: mcs51_decode::Memory,
) -> Result<(), Memory>
    ensures { OnOk result (accesses.new ≡ accesses.old ++ showing.address_accesses pc state.now memory) }
{
    match memory {
        mcs51_decode::Memory::Direct(_) => Ok(()),
        mcs51_decode::Memory::Working(working) => show_pointer(accesses, pc, state, working),
    }
}

/// Adds the accesses to an operand that is read. Behind an error the items are of no use.
pub fn show_read<M: Cells>(
    accesses: &mut Sequence<Item>,
    pc: u16,
    state: &State<M>,
    operand: mcs51_decode::Memory,
) -> Result<(), Memory>
    ensures { OnOk result (accesses.new ≡ accesses.old ++ shown.read_items pc state.now operand) }
{
    show_address(accesses, pc, state, operand)?;
    accesses.push(access(pc, false, &addresses_of(state, operand)))?;
    Ok(())
}

/// Adds the accesses to an operand that is written. Behind an error the items are of no use.
pub fn show_write<M: Cells>(
    accesses: &mut Sequence<Item>,
    pc: u16,
    state: &State<M>,
    operand: mcs51_decode::Memory,
) -> Result<(), Memory>
    ensures { OnOk result (accesses.new ≡ accesses.old ++ shown.write_items pc state.now operand) }
{
    show_address(accesses, pc, state, operand)?;
    accesses.push(access(pc, true, &addresses_of(state, operand)))?;
    Ok(())
}

/// Adds a read and a write of a byte at one of some addresses. Behind an error the items are of no use.
pub fn show_update_at(accesses: &mut Sequence<Item>, pc: u16, at: &Addresses) -> Result<(), Memory>
    ensures { OnOk result (accesses.new ≡ accesses.old ++ shown.update_at pc at.now) }
{
    accesses.push(access(pc, false, at))?;
    accesses.push(access(pc, true, at))?;
    Ok(())
}

/// Adds the accesses to an operand that is read and then written. Behind an error the items are of no use.
pub fn show_update<M: Cells>(
    accesses: &mut Sequence<Item>,
    pc: u16,
    state: &State<M>,
    operand: mcs51_decode::Memory,
) -> Result<(), Memory>
    ensures { OnOk result (accesses.new ≡ accesses.old ++ shown.update_items pc state.now operand) }
{
    show_address(accesses, pc, state, operand)?;
    show_update_at(accesses, pc, &addresses_of(state, operand))
}
