//! Returns, and the accesses of calls.

ghost use Rattle.std.specs.Prelude.{◌≡◌, ◌++◌, OnOk};
ghost use Rattle.mcs51_control.specs.Returning as returning;

use call_context::{Frame, Item, Sequence};
use entry_value::{Byte, Cells, Entry};
use mcs51_state::{Addresses, Levels, State, access, pop_byte, read_byte, stack_top};
use no_memory::Memory;
use value_bits::w16;
use value_set::{Vs8, Vs16};

/// What stands on top of the stack: the high byte of a return address.
fn high_byte<M: Cells>(framed: bool, state: &State<M>) -> Byte
    ensures { result ≡ returning.high_byte framed state.now }
{
    read_byte(framed, state, &stack_top(state))
}

/// Where the low byte of a return address stands: below the top.
fn below_top<M: Cells>(state: &State<M>) -> Addresses
    ensures { result ≡ returning.below_top state.now }
{
    Addresses::InRam(state.sp.sub(&Vs8::one(1)))
}

/// The low byte of a return address.
fn low_byte<M: Cells>(framed: bool, state: &State<M>) -> Byte
    ensures { result ≡ returning.low_byte framed state.now }
{
    read_byte(framed, state, &below_top(state))
}

/// Where RET and RETI may go.
#[tactic(auto, unfolding(crate::specs::Returning::return_targets))]
pub fn return_targets<M: Cells>(framed: bool, state: &State<M>) -> Vs16
    ensures { result ≡ returning.return_targets framed state.now }
{
    w16::pair(&low_byte(framed, state).set, &high_byte(framed, state).set)
}

/// Takes the return address from the stack, as RET does.
pub fn return_from<M: Cells>(state: &mut State<M>)
    ensures { state.new ≡ returning.returned_known state.old }
{
    pop_byte(state);
    pop_byte(state);
}

/// The levels that may be in service where RETI has ended one.
fn level_left(levels: &Levels) -> Levels
    ensures { result ≡ returning.level_left levels.now }
{
    Levels {
        none: levels.none || levels.low || levels.high,
        low: levels.both,
        high: false,
        both: false,
    }
}

/// Takes the return address from the stack and ends the highest level in service, as RETI does.
pub fn return_from_interrupt<M: Cells>(state: &mut State<M>)
    ensures { state.new ≡ returning.interrupt_returned state.old }
{
    return_from(state);
    state.levels = level_left(&state.levels);
}

/// Whether a relation is that of a byte of PC to itself, without a mask.
fn is_counter(place: u16, entry: &Option<Entry>) -> bool
    ensures { result ≡ returning.is_counter place entry.now }
{
    match entry {
        Some(entry) => entry.place == place && entry.and == 0xFF && entry.or == 0,
        None => false,
    }
}

/// Whether SP is two above where an interrupt came.
fn is_behind_entry(sp: &Vs8, came: u16) -> bool
    ensures { result ≡ returning.is_behind_entry sp.now came }
{
    sp.within(&Vs8::one(((came as u32 + 2) % 256) as u8))
}

/// Whether RETI goes back to the state that the frame's interrupt suspended.
#[tactic(auto, unfolding(crate::specs::Returning::goes_back))]
pub fn goes_back<M: Cells>(framed: bool, frame: &Frame, state: &State<M>) -> bool
    ensures { result ≡ returning.goes_back framed frame.now state.now }
{
    match frame {
        Frame::Irq { sp: Some(sp), .. } => {
            is_behind_entry(&state.sp, *sp)
                && is_counter(0x201, &high_byte(framed, state).entry)
                && is_counter(0x200, &low_byte(framed, state).entry)
        }
        _ => false,
    }
}

/// Adds the pushes of a call at an address. Behind an error the items are of no use.
pub fn show_call<M: Cells>(
    items: &mut Sequence<Item>,
    pc: u16,
    state: &State<M>,
) -> Result<(), Memory>
    ensures { OnOk result (items.new ≡ items.old ++ returning.call_accesses pc state.now) }
{
    let low = state.sp.add(&Vs8::one(1));
    let high = low.add(&Vs8::one(1));
    items.push(access(pc, true, &Addresses::InRam(low)))?;
    items.push(access(pc, true, &Addresses::InRam(high)))?;
    Ok(())
}

/// Adds the reads of a return at an address. Behind an error the items are of no use.
pub fn show_return<M: Cells>(
    items: &mut Sequence<Item>,
    pc: u16,
    state: &State<M>,
) -> Result<(), Memory>
    ensures { OnOk result (items.new ≡ items.old ++ returning.return_accesses pc state.now) }
{
    items.push(access(pc, false, &stack_top(state)))?;
    items.push(access(pc, false, &below_top(state)))?;
    Ok(())
}
