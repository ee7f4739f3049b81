//! What an entry shows.

ghost use Rattle.std.specs.Prelude.{◌≡◌, ◌<◌, ◌++◌, OnOk, true};
ghost use Rattle.call_context.specs.declared.shown.Item.TheVariants.{Access};
ghost use Rattle.call_context.specs.declared.shown.Set.TheVariants.{W};
ghost use Rattle.chip_numbers.specs.declared.space.Space.TheVariants.{Mem};
ghost use Rattle.msp430_chip.specs.Memory.{HasRam};
ghost use Rattle.msp430_entry.specs.Entry as entry;

use crate::coming::{Coming, handler_of};
use crate::entering::{counter_slot, status_slot};
use call_context::{Item, Sequence, Set, Space};
use msp430_chip::Device;
use no_memory::Memory;
use value_set::Vs16;

/// The push of a word at one of some addresses.
fn pushed(pc: u16, at: Vs16) -> Item
    ensures { result ≡ Access pc Mem true 2 (W at) }
{
    Item::Access {
        pc,
        space: Space::Mem,
        write: true,
        size: 2,
        at: Set::W(at),
    }
}

/// Adds what the entry of an interrupt that comes at an address shows, but for the stack pointer: the pushes of PC and SR,
/// and the edge to the handler. Behind an error the items are of no use.
pub fn add_entry_items(
    items: &mut Sequence<Item>,
    device: &Device,
    pc: u16,
    coming: &Coming,
) -> Result<(), Memory>
    requires vector { coming.now.vector < 14 }
    requires ram { HasRam device.now }
    ensures { OnOk result (items.new ≡ items.old ++ entry.entry_items device.now pc coming.now) }
{
    items.push(pushed(pc, counter_slot(device, &coming.sp)))?;
    items.push(pushed(pc, status_slot(device, &coming.sp)))?;
    items.push(Item::Edge {
        from: pc,
        to: handler_of(device, coming.vector),
    })?;
    Ok(())
}
