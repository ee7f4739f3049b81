//! Instructions that write a byte of memory.

ghost use Rattle.std.specs.Prelude.{◌≡◌, OnOk};
ghost use Rattle.mcs51_state.specs.Known.{byte_of};
ghost use Rattle.mcs51_moves.specs.Moves as moves;

use entry_value::{Byte, Cells};
use mcs51_decode::{Logic, Mask, Pointer, Working};
use mcs51_results::{Operand, decreased, increased, masked_made, masked_status};
use mcs51_state::{
    State, addresses_of, direct_addresses, read_byte, set_accumulator, set_status,
    working_addresses, write_byte,
};
use no_memory::Memory;
use value_bits::w8;
use value_set::Vs8;

/// PSW, as a direct byte.
const PSW: u8 = 0xD0;

/// INC of a byte. Behind an error the state is of no use.
#[tactic(auto, unfolding(crate::specs::Moves::incremented))]
pub fn increment<M: Cells>(
    framed: bool,
    state: &mut State<M>,
    operand: mcs51_decode::Memory,
) -> Result<(), Memory>
    ensures { OnOk result (state.new ≡ moves.incremented framed operand state.old) }
{
    let addresses = addresses_of(state, operand);
    let byte = increased(&read_byte(framed, state, &addresses));
    write_byte(framed, state, &addresses, &byte)
}

/// DEC of a byte. Behind an error the state is of no use.
#[tactic(auto, unfolding(crate::specs::Moves::decremented))]
pub fn decrement<M: Cells>(
    framed: bool,
    state: &mut State<M>,
    operand: mcs51_decode::Memory,
) -> Result<(), Memory>
    ensures { OnOk result (state.new ≡ moves.decremented framed operand state.old) }
{
    let addresses = addresses_of(state, operand);
    let byte = decreased(&read_byte(framed, state, &addresses));
    write_byte(framed, state, &addresses, &byte)
}

/// What a direct byte is masked with.
fn operand_of<M: Cells>(state: &State<M>, mask: Mask) -> Operand
    ensures { result ≡ moves.mask_operand state.now mask }
{
    match mask {
        Mask::Accumulator => Operand::Among(state.a.set),
        Mask::Immediate(value) => Operand::Constant(value),
    }
}

/// ORL, ANL or XRL of a direct byte. PSW is masked bit by bit. Behind an error the state is of no use.
#[tactic(auto, unfolding(crate::specs::Moves::direct_masked))]
pub fn mask_direct<M: Cells>(
    framed: bool,
    state: &mut State<M>,
    operation: Logic,
    direct: u8,
    mask: Mask,
) -> Result<(), Memory>
    ensures { OnOk result (state.new ≡ moves.direct_masked framed operation direct mask state.old) }
{
    let operand = operand_of(state, mask);
    if direct == PSW {
        let status = masked_status(operation, &state.psw, &operand);
        set_status(state, status);
        return Ok(());
    }
    let addresses = direct_addresses(direct);
    let byte = masked_made(operation, &read_byte(framed, state, &addresses), &operand);
    write_byte(framed, state, &addresses, &byte)
}

/// MOV of a number to a byte. Behind an error the state is of no use.
#[tactic(auto, unfolding(crate::specs::Moves::immediate_moved))]
pub fn move_immediate<M: Cells>(
    framed: bool,
    state: &mut State<M>,
    to: mcs51_decode::Memory,
    value: u8,
) -> Result<(), Memory>
    ensures { OnOk result (state.new ≡ moves.immediate_moved framed to value state.old) }
{
    let addresses = addresses_of(state, to);
    let byte = Byte {
        set: Vs8::one(value),
        entry: None,
    };
    write_byte(framed, state, &addresses, &byte)
}

/// MOV to a direct byte. Behind an error the state is of no use.
#[tactic(auto, unfolding(crate::specs::Moves::moved_to_direct))]
pub fn move_to_direct<M: Cells>(
    framed: bool,
    state: &mut State<M>,
    to: u8,
    from: mcs51_decode::Memory,
) -> Result<(), Memory>
    ensures { OnOk result (state.new ≡ moves.moved_to_direct framed to from state.old) }
{
    let byte = read_byte(framed, state, &addresses_of(state, from));
    write_byte(framed, state, &direct_addresses(to), &byte)
}

/// MOV from a direct byte. Behind an error the state is of no use.
#[tactic(auto, unfolding(crate::specs::Moves::moved_from_direct))]
pub fn move_from_direct<M: Cells>(
    framed: bool,
    state: &mut State<M>,
    to: Working,
    from: u8,
) -> Result<(), Memory>
    ensures { OnOk result (state.new ≡ moves.moved_from_direct framed to from state.old) }
{
    let addresses = working_addresses(state, to);
    let byte = read_byte(framed, state, &direct_addresses(from));
    write_byte(framed, state, &addresses, &byte)
}

/// MOV of A to a byte. Behind an error the state is of no use.
#[tactic(auto, unfolding(crate::specs::Moves::stored))]
pub fn store<M: Cells>(
    framed: bool,
    state: &mut State<M>,
    to: mcs51_decode::Memory,
) -> Result<(), Memory>
    ensures { OnOk result (state.new ≡ moves.stored framed to state.old) }
{
    let addresses = addresses_of(state, to);
    let byte = state.a;
    write_byte(framed, state, &addresses, &byte)
}

/// XCH: the byte is written, and then A. Behind an error the state is of no use.
#[tactic(auto, unfolding(crate::specs::Moves::exchanged))]
pub fn exchange<M: Cells>(
    framed: bool,
    state: &mut State<M>,
    with: mcs51_decode::Memory,
) -> Result<(), Memory>
    ensures { OnOk result (state.new ≡ moves.exchanged framed with state.old) }
{
    let addresses = addresses_of(state, with);
    let byte = read_byte(framed, state, &addresses);
    let held = state.a;
    write_byte(framed, state, &addresses, &held)?;
    set_accumulator(state, &byte);
    Ok(())
}

/// A byte with the high digit of one and the low digit of another.
fn digits_joined(high: &Vs8, low: &Vs8) -> Byte
    ensures { result ≡ byte_of (moves.digits_joined high.now low.now) }
{
    Byte {
        set: w8::or(
            &w8::and(high, &Vs8::one(0xF0)),
            &w8::and(low, &Vs8::one(0x0F)),
        ),
        entry: None,
    }
}

/// XCHD, likewise: the low digits change places. Behind an error the state is of no use.
#[tactic(auto, unfolding(crate::specs::Moves::digit_exchanged))]
pub fn exchange_digit<M: Cells>(
    framed: bool,
    state: &mut State<M>,
    with: Pointer,
) -> Result<(), Memory>
    ensures { OnOk result (state.new ≡ moves.digit_exchanged framed with state.old) }
{
    let addresses = working_addresses(state, Working::Indirect(with));
    let byte = read_byte(framed, state, &addresses);
    let held = digits_joined(&state.a.set, &byte.set);
    let written = digits_joined(&byte.set, &state.a.set);
    write_byte(framed, state, &addresses, &written)?;
    set_accumulator(state, &held);
    Ok(())
}
