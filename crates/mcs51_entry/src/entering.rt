//! What is known where a handler begins.

ghost use Rattle.std.specs.Prelude.{◌≡◌, ◌<◌, ◌++◌, ◌∷◌, [], None, Some, IfOk, OnOk};
ghost use Rattle.mcs51_entry.specs.Entering as entry;

use crate::coming::{Coming, handler_of};
use call_context::{Item, Sequence};
use entry_value::{Byte, Cells, Entry};
use irq_frames::{Ranges, unrelated};
use mcs51_state::{Addresses, Levels, State, Status, access, push_pair};
use no_memory::Memory;
use std::alloc::Global;
use value_set::Vs8;

/// The relation of a place to itself: all of what it holds.
fn itself(place: u16) -> Entry
    ensures { result ≡ entry.itself place }
{
    Entry {
        place,
        and: 0xFF,
        or: 0,
    }
}

/// What a place held, one of a set.
fn related(place: u16, set: Vs8) -> Byte
    ensures { result ≡ entry.related place set }
{
    Byte {
        set,
        entry: Some(itself(place)),
    }
}

/// What is known of a state, told of itself, where SP is one of a set.
#[tactic(auto, unfolding(crate::specs::Entering::handed))]
fn handed<M: Cells>(alloc: Global, sp: &Vs8, state: &State<M>) -> Result<State<M>, Memory>
    ensures { IfOk result (λ handed. handed ≡ entry.handed sp.now state.now) }
{
    Ok(State {
        sp: *sp,
        a: related(0x1E0, state.a.set),
        b: related(0x1F0, state.b.set),
        dpl: related(0x182, state.dpl.set),
        dph: related(0x183, state.dph.set),
        ie: related(0x1A8, state.ie.set),
        ip: related(0x1B8, state.ip.set),
        psw: Status {
            bits: state.psw.bits,
            entry: Some(itself(0x1D0)),
        },
        levels: state.levels,
        linear_fact: state.linear_fact,
        carry_fact: state.carry_fact,
        cells: unrelated(alloc, &state.cells)?,
        touched: Ranges::new(alloc),
    })
}

/// The levels in service in a handler.
fn levels_at(level: u8) -> Levels
    ensures { result ≡ entry.levels_at level }
{
    Levels {
        none: false,
        low: level == 1,
        high: level == 2,
        both: level != 1 && level != 2,
    }
}

/// What is known where the handler of an interrupt begins, which comes at an address. It fails where memory runs out.
#[tactic(auto, unfolding(crate::specs::Entering::entered_known))]
pub fn entered<M: Cells>(
    alloc: Global,
    state: &State<M>,
    pc: u16,
    coming: &Coming,
) -> Result<State<M>, Memory>
    ensures { IfOk result (λ known. known ≡ entry.entered_known state.now pc coming.now) }
{
    let mut after = handed(alloc, &coming.sp, state)?;
    let low = related(0x200, Vs8::one((pc % 256) as u8));
    let high = related(0x201, Vs8::one((pc / 256) as u8));
    push_pair(true, &mut after, &low, &high)?;
    after.levels = levels_at(coming.level);
    Ok(after)
}

/// Adds what the entry of an interrupt that comes at an address shows, but for the stack pointer: the pushes of PC's bytes,
/// and the edge to the handler. Behind an error the items are of no use.
pub fn add_entry_items(items: &mut Sequence<Item>, pc: u16, coming: &Coming) -> Result<(), Memory>
    requires { coming.now.source < 6 }
    ensures { OnOk result (items.new ≡ items.old ++ entry.entry_accesses pc coming.now ++ entry.entry_edge pc coming.now ∷ []) }
{
    let low = coming.sp.add(&Vs8::one(1));
    let high = low.add(&Vs8::one(1));
    items.push(access(pc, true, &Addresses::InRam(low)))?;
    items.push(access(pc, true, &Addresses::InRam(high)))?;
    items.push(Item::Edge {
        from: pc,
        to: handler_of(coming.source),
    })?;
    Ok(())
}
