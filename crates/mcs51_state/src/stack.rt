//! The stack.

ghost use Rattle.std.specs.Prelude.{◌≡◌, OnOk};
ghost use Rattle.mcs51_state.specs.Stack as stack;

use crate::addresses::Addresses;
use crate::bytes::one_byte;
use crate::ram::write_ram;
use crate::state::State;
use entry_value::{Byte, Cells};
use no_memory::Memory;
use value_set::Vs8;

/// Where the top byte of the stack stands.
pub fn stack_top<M: Cells>(state: &State<M>) -> Addresses
    ensures { result ≡ stack.stack_top state.now }
{
    Addresses::InRam(state.sp)
}

/// Pushes a byte: SP grows, and the byte is written where it then stands. Behind an error the state is of no use.
#[tactic(auto, unfolding(crate::specs::Stack::byte_pushed))]
pub fn push_byte<M: Cells>(framed: bool, state: &mut State<M>, byte: &Byte) -> Result<(), Memory>
    ensures { OnOk result (state.new ≡ stack.byte_pushed framed byte.now state.old) }
{
    let top = state.sp.add(&Vs8::one(1));
    state.sp = top;
    write_ram(framed, state, &top, byte)
}

/// Pushes two bytes, the low one first. Behind an error the state is of no use.
pub fn push_pair<M: Cells>(
    framed: bool,
    state: &mut State<M>,
    low: &Byte,
    high: &Byte,
) -> Result<(), Memory>
    ensures { OnOk result (state.new ≡ stack.pair_pushed framed low.now high.now state.old) }
{
    push_byte(framed, state, low)?;
    push_byte(framed, state, high)
}

/// Pushes a program address, as a call does. Behind an error the state is of no use.
pub fn push_address<M: Cells>(
    framed: bool,
    state: &mut State<M>,
    address: u16,
) -> Result<(), Memory>
    ensures { OnOk result (state.new ≡ stack.address_pushed framed address state.old) }
{
    let low = one_byte((address % 256) as u8);
    let high = one_byte((address / 256) as u8);
    push_pair(framed, state, &low, &high)
}

/// Takes the top byte from the stack.
pub fn pop_byte<M: Cells>(state: &mut State<M>)
    ensures { state.new ≡ stack.byte_popped state.old }
{
    state.sp = state.sp.sub(&Vs8::one(1));
}
