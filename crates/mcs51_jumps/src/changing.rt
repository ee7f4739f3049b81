//! CY, and bits by their addresses.

ghost use Rattle.std.specs.Prelude.{◌≡◌, OnOk};
ghost use Rattle.mcs51_jumps.specs.Bits as bits;

use entry_value::{Byte, Cells};
use mcs51_decode::{BitOperation, CarryByBit, CarryOperation};
use mcs51_results::{byte_with_bit, carry_bit_made, carry_made, status_with_bit};
use mcs51_state::{
    State, Status, bit_addresses, carry, read_bit, read_byte, set_status, write_byte,
};
use no_memory::Memory;
use value_bits::Tri;

/// The address of PSW, whose bits have the addresses from there on.
const PSW: u8 = 0xD0;

/// CPL, CLR or SETB of CY.
#[tactic(auto, unfolding(crate::specs::Bits::carry_changed))]
pub fn change_carry<M: Cells>(state: &mut State<M>, operation: CarryOperation)
    ensures { state.new ≡ bits.carry_changed operation state.old }
{
    let made = carry_made(operation, &state.psw);
    set_status(state, made);
}

/// What is known of a bit.
fn bit_read<M: Cells>(state: &State<M>, bit: u8) -> Tri
    ensures { result ≡ bits.bit_read state.now bit }
{
    read_bit(state, &bit_addresses(bit), bit % 8)
}

/// ORL, ANL or MOV of CY with the bit at an address.
#[tactic(auto, unfolding(crate::specs::Bits::carry_joined))]
pub fn join_carry<M: Cells>(state: &mut State<M>, operation: CarryByBit, bit: u8)
    ensures { state.new ≡ bits.carry_joined operation bit state.old }
{
    let made = carry_bit_made(operation, bit_read(state, bit), &state.psw);
    set_status(state, made);
}

/// Whether a bit is one of PSW.
fn is_of_status(bit: u8) -> bool
    ensures { result ≡ bits.is_of_status bit }
{
    bit / 8 * 8 == PSW
}

/// PSW behind an operation on the bit at an address.
fn status_changed<M: Cells>(state: &State<M>, operation: BitOperation, bit: u8) -> Status
    ensures { result ≡ bits.status_changed operation bit state.now }
{
    status_with_bit(operation, bit, &state.psw)
}

/// The byte that has the bit at an address, behind an operation on that.
fn byte_changed<M: Cells>(framed: bool, state: &State<M>, operation: BitOperation, bit: u8) -> Byte
    ensures { result ≡ bits.byte_changed framed operation bit state.now }
{
    let byte = read_byte(framed, state, &bit_addresses(bit));
    byte_with_bit(operation, bit, carry(state), &byte)
}

/// MOV of CY to the bit at an address, or CPL, CLR or SETB of it. Behind an error the state is of no use.
#[tactic(auto, unfolding(crate::specs::Bits::bit_changed))]
pub fn change_bit<M: Cells>(
    framed: bool,
    state: &mut State<M>,
    operation: BitOperation,
    bit: u8,
) -> Result<(), Memory>
    ensures { OnOk result (state.new ≡ bits.bit_changed framed operation bit state.old) }
{
    if is_of_status(bit) {
        let made = status_changed(state, operation, bit);
        set_status(state, made);
        return Ok(());
    }
    let byte = byte_changed(framed, state, operation, bit);
    write_byte(framed, state, &bit_addresses(bit), &byte)
}
