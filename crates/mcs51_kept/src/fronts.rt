//! What is known in front of an instruction.

ghost use Rattle.std.specs.Prelude.{◌≡◌, IfOk, unwrap_or};
ghost use Rattle.mcs51_kept.specs.Front as specs;

use crate::sites::{Sites, pointer_of};
use entry_value::Cells;
use mcs51_branch::{Window as ByteWindow, cut_place};
use mcs51_decode::{Image, Instr, Pointer, number_of_pointer};
use mcs51_state::{Compared, State, register_addresses};
use no_memory::Memory;
use promises::{Promise, Window, windows_at};
use std::alloc::Global;

/// The first address that may be in a window.
fn first_in<M: Cells>(at: &State<M>, window: Window) -> u32
    ensures { result ≡ specs.first_in at.now window }
{
    match window {
        Window::Between { lo, .. } | Window::BelowStack { lo } => lo as u32,
        Window::AboveStack { .. } => at.sp.least() as u32 + 1,
    }
}

/// The address behind the last one that may be in it.
fn behind_in<M: Cells>(at: &State<M>, window: Window) -> u32
    ensures { result ≡ specs.behind_in at.now window }
{
    match window {
        Window::Between { hi, .. } | Window::AboveStack { hi } => hi as u32 + 1,
        Window::BelowStack { .. } => at.sp.greatest() as u32,
    }
}

/// The addresses of RAM from one on up to another, which isn't among them.
fn in_ram(first: u32, behind: u32) -> ByteWindow
    ensures { result ≡ specs.in_ram first behind }
{
    ByteWindow {
        low: (first % 256) as u8,
        len: behind.min(256).saturating_sub(first),
    }
}

/// What is known where the register at an address of RAM points into a window, if anything is left.
fn cut_to<M: Cells>(
    alloc: Global,
    at: &State<M>,
    register: u8,
    window: Window,
) -> Result<Option<State<M>>, Memory>
    ensures { IfOk result (λ part. part ≡ specs.cut_to at.now register window) }
{
    let window = in_ram(first_in(at, window), behind_in(at, window));
    let mut part = at.copy(alloc)?;
    if cut_place(&mut part, Compared::Ram(register), window)? {
        Ok(Some(part))
    } else {
        Ok(None)
    }
}

/// The same of windows: of several none is cut to.
fn cut_by<M: Cells>(
    alloc: Global,
    at: &State<M>,
    register: u8,
    windows: &[Window],
) -> Result<Option<State<M>>, Memory>
    ensures { IfOk result (λ part. part ≡ specs.cut_by at.now register windows.now) }
{
    match windows {
        [window] => cut_to(alloc, at, register, *window),
        _ => Ok(None),
    }
}

/// Where R0 or R1 stands, if the bank is known.
fn register_at<M: Cells>(at: &State<M>, pointer: Pointer) -> Option<u8>
    ensures { result ≡ specs.register_at at.now pointer }
{
    let registers = register_addresses(at, number_of_pointer(pointer));
    if registers.count() == 1 {
        Some(registers.nth(0))
    } else {
        None
    }
}

/// What is known in front of an instruction whose step keeps the promises, where that is more than what is known anyway.
#[tactic(auto, unfolding(crate::specs::Front::part_of))]
pub fn front<M: Cells>(
    alloc: Global,
    image: &Image,
    promises: &[Promise],
    at: &State<M>,
    pc: u16,
    instr: &Instr,
) -> Result<Option<State<M>>, Memory>
    ensures { IfOk result (λ found. unwrap_or found at.now ≡ specs.front image.now promises.now at.now pc instr.now) }
{
    let Some(pointer) = pointer_of(instr) else {
        return Ok(None);
    };
    let Some(register) = register_at(at, pointer) else {
        return Ok(None);
    };
    match windows_at(promises, &Sites { image }, pc) {
        Some(windows) => cut_by(alloc, at, register, windows),
        None => Ok(None),
    }
}
