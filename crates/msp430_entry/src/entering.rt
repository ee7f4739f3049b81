//! What is known where a handler begins.

ghost use Rattle.std.specs.Prelude.{◌≡◌, IfOk};
ghost use Rattle.msp430_chip.specs.Memory.{HasRam};
ghost use Rattle.msp430_entry.specs.Entry as entry;

use crate::handing::{handed, related};
use entry_value::{Cells, Entry};
use msp430_alu::{located, register_word, store};
use msp430_chip::Device;
use msp430_decode::{Register, Width};
use msp430_state::{State, Status};
use no_memory::Memory;
use std::alloc::Global;
use value_bits::Tri;
use value_set::Vs16;

/// SP behind both pushes.
fn entered_sp(sp: &Vs16) -> Vs16
    ensures { result ≡ entry.entered_sp sp.now }
{
    sp.add(&Vs16::one(0xFFFC))
}

/// Where PC is pushed: at SP - 2.
pub fn counter_slot(device: &Device, sp: &Vs16) -> Vs16
    requires { HasRam device.now }
    ensures { result ≡ entry.counter_slot device.now sp.now }
{
    located(device, Width::Word, &sp.add(&Vs16::one(0xFFFE)))
}

/// Where SR is pushed: at SP - 4.
pub fn status_slot(device: &Device, sp: &Vs16) -> Vs16
    requires { HasRam device.now }
    ensures { result ≡ entry.status_slot device.now sp.now }
{
    located(device, Width::Word, &entered_sp(sp))
}

/// SR where a handler begins: all but SCG0, bit 6, is cleared.
fn status_entered(status: &Status) -> Status
    ensures { result ≡ entry.status_entered status.now }
{
    let mut bits = [Tri::Zero; 9];
    bits[6] = status.bits[6];
    Status {
        bits,
        entry: Some(Entry {
            place: 2,
            and: 0xFE40,
            or: 0,
        }),
    }
}

/// What is known where the handler of an interrupt begins, that comes at an address where SP is one of a set. It fails where
/// memory runs out.
#[tactic(auto, unfolding(crate::specs::Entry::entered_known))]
pub fn entered<M: Cells>(
    alloc: Global,
    device: &Device,
    state: &State<M>,
    pc: u16,
    sp: &Vs16,
) -> Result<State<M>, Memory>
    requires { HasRam device.now }
    ensures { IfOk result (λ known. known ≡ entry.entered_known device.now state.now pc sp.now) }
{
    let mut after = handed(alloc, state)?;
    let counter = related(Vs16::one(pc), 0);
    let at = counter_slot(device, sp);
    store(device, true, &mut after, Width::Word, &at, counter)?;
    let status = related(register_word(state, sp, Register::Sr).set, 2);
    let at = status_slot(device, sp);
    store(device, true, &mut after, Width::Word, &at, status)?;
    after.sp = entered_sp(sp);
    after.status = status_entered(&state.status);
    Ok(after)
}
