//! Stores that may write a byte of the program.

ghost use Rattle.std.specs.Prelude.{◌≡◌, ◌++◌, OnOk};
ghost use Rattle.msp430_chip.specs.Memory.{HasRam};
ghost use Rattle.msp430_flow.specs.Chip as chip;

use crate::meeting::may_hit;
use call_context::Sequence;
use chip_analysis::Cause;
use chip_flow::add_open;
use msp430_chip::Device;
use msp430_decode::Width;
use msp430_entry::{Coming, counter_slot, status_slot};
use no_memory::Memory;
use value_set::Vs16;

/// Why a store is left open, if it is.
fn open_store(device: &Device, width: Width, set: &Vs16) -> Option<Cause>
    ensures { result ≡ chip.open_store device.now width set.now }
{
    if may_hit(device, width, set) {
        return Some(Cause::Store(*set));
    }
    None
}

/// The same of an instruction's store, if it stores.
pub fn store_of(device: &Device, width: Width, store: Option<Vs16>) -> Option<Cause>
    ensures { result ≡ chip.store_of device.now width store }
{
    match store {
        Some(set) => open_store(device, width, &set),
        None => None,
    }
}

/// Adds the opens of the stores of PC and SR.
pub fn add_push_opens(
    opens: &mut Sequence<(u16, Cause)>,
    device: &Device,
    pc: u16,
    coming: &Coming,
) -> Result<(), Memory>
    requires { HasRam device.now }
    ensures { OnOk result (opens.new ≡ opens.old ++ chip.push_opens device.now pc coming.now) }
{
    let counter = counter_slot(device, &coming.sp);
    add_open(opens, pc, open_store(device, Width::Word, &counter))?;
    let status = status_slot(device, &coming.sp);
    add_open(opens, pc, open_store(device, Width::Word, &status))
}
