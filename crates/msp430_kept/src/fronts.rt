//! What is known in front of an instruction.

ghost use Rattle.std.specs.Prelude.{◌≡◌, ◌<◌, ◌≤◌, IfOk, IfSome, unwrap_or};
ghost use Rattle.std.specs.Option.{option_map};
ghost use Rattle.msp430_kept.specs.Front as specs;
ghost use Rattle.msp430_kept.specs.Sites as sites;

use crate::pointer::pointer_of;
use crate::sites::Sites;
use entry_value::Cells;
use msp430_chip::Device;
use msp430_decode::Instr;
use msp430_state::State;
use no_memory::Memory;
use promises::{Promise, Window, windows_at};
use std::alloc::Global;
use value_set::Vs16;

/// The first address that may be in a window.
fn first_in(sp: &Vs16, window: Window) -> u32
    ensures value { result ≡ specs.first_in sp.now window }
    ensures most { result ≤ 65536 }
{
    match window {
        Window::Between { lo, .. } | Window::BelowStack { lo } => lo as u32,
        Window::AboveStack { .. } => sp.least() as u32 + 1,
    }
}

/// The address behind the last one that may be in a window.
fn behind_in(sp: &Vs16, window: Window) -> u32
    ensures { result ≡ specs.behind_in sp.now window }
{
    match window {
        Window::Between { hi, .. } | Window::AboveStack { hi } => hi as u32 + 1,
        Window::BelowStack { .. } => sp.greatest() as u32,
    }
}

/// The values of a pointer with which it points into a window.
fn cut_to(sp: &Vs16, set: &Vs16, added: u16, window: Window) -> Option<Vs16>
    ensures { result ≡ specs.cut_to sp.now set.now added window }
{
    let first = first_in(sp, window);
    let low = (first + 65536 - added as u32) % 65536;
    set.cut(low as u16, behind_in(sp, window).saturating_sub(first))
}

/// The same of the windows of a store, where there is one.
fn cut_by(sp: &Vs16, set: &Vs16, added: u16, windows: &[Window]) -> Option<Vs16>
    ensures { result ≡ specs.cut_by sp.now set.now added windows.now }
{
    match windows {
        [window] => cut_to(sp, set, added, *window),
        _ => None,
    }
}

/// The windows of an address. RAM that answers at two addresses has none.
fn windows_in<'a>(device: &Device, promises: &'a [Promise], pc: u16) -> Option<&'a [Window]>
    ensures { option_map (λ found. found.now) result ≡ specs.windows_in device.now promises.now pc }
{
    if device.ram.mirror.is_some() {
        return None;
    }
    let image = Sites {
        image: &device.image,
    };
    windows_at(promises, &image, pc)
}

/// The register through which an instruction stores, and the values that are left of it.
fn cut_through<M: Cells>(
    device: &Device,
    promises: &[Promise],
    at: &State<M>,
    pc: u16,
    instr: &Instr,
) -> Option<(u8, Vs16)>
    ensures value { result ≡ specs.cut_through at.now (sites.pointer_of instr.now) (specs.windows_in device.now promises.now pc) }
    ensures above { IfSome result (λ found. 4 ≤ found.0) }
    ensures below { IfSome result (λ found. found.0 < 16) }
{
    let pointer = pointer_of(instr)?;
    let windows = windows_in(device, promises, pc)?;
    let set = &at.registers[pointer.register as usize - 4].set;
    let left = cut_by(&at.sp, set, pointer.added, windows)?;
    Some((pointer.register, left))
}

/// What is known in front of an instruction whose step keeps the promises, where that is more than what is known anyway.
#[tactic(auto, unfolding(crate::specs::Front::front))]
pub fn front<M: Cells>(
    alloc: Global,
    device: &Device,
    promises: &[Promise],
    at: &State<M>,
    pc: u16,
    instr: &Instr,
) -> Result<Option<State<M>>, Memory>
    ensures { IfOk result (λ found. unwrap_or found at.now ≡ specs.front device.now promises.now at.now pc instr.now) }
{
    let Some((register, set)) = cut_through(device, promises, at, pc, instr) else {
        return Ok(None);
    };
    let mut known = at.copy(alloc)?;
    known.registers[register as usize - 4].set = set;
    Ok(Some(known))
}
