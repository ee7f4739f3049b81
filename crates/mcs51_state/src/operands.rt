//! Where operands stand.

ghost use Rattle.std.specs.Prelude.{◌≡◌};
ghost use Rattle.mcs51_state.specs.Operands as operands;

use crate::addresses::Addresses;
use crate::reading::ram_values;
use crate::state::State;
use entry_value::Cells;
use mcs51_chip::{Address, bit_address, direct_address};
use mcs51_decode::{Memory, Pointer, Working, number_of_pointer, number_of_register};
use value_bits::{Tri, w8, w16};
use value_set::{Vs8, Vs16};

/// Where R0 stands, by the bits 2 to 7 of PSW.
fn bank(bits: &[Tri; 6]) -> Vs8
    ensures { result ≡ operands.bank_of bits.now }
{
    w8::from_bits(&[
        Tri::Zero,
        Tri::Zero,
        Tri::Zero,
        bits[1],
        bits[2],
        Tri::Zero,
        Tri::Zero,
        Tri::Zero,
    ])
}

/// Where the register of a number stands in RAM.
#[tactic(auto, unfolding(crate::specs::Operands::register_addresses))]
pub fn register_addresses<M: Cells>(state: &State<M>, number: u8) -> Vs8
    ensures { result ≡ operands.register_addresses state.now number }
{
    bank(&state.psw.bits).add(&Vs8::one(number))
}

/// Where R0 or R1 may point to.
pub fn pointed_addresses<M: Cells>(state: &State<M>, pointer: Pointer) -> Vs8
    ensures { result ≡ operands.pointed_addresses state.now pointer }
{
    ram_values(
        state,
        &register_addresses(state, number_of_pointer(pointer)),
    )
}

/// One address.
fn only_at(address: Address) -> Addresses
    ensures { result ≡ operands.only_at address }
{
    match address {
        Address::InRam(at) => Addresses::InRam(Vs8::one(at)),
        Address::InSfr(at) => Addresses::InSfr(at),
    }
}

/// Where a direct byte stands.
pub fn direct_addresses(direct: u8) -> Addresses
    ensures { result ≡ operands.direct_addresses direct }
{
    only_at(direct_address(direct))
}

/// Where the byte of a bit stands.
pub fn bit_addresses(bit: u8) -> Addresses
    ensures { result ≡ operands.bit_addresses bit }
{
    only_at(bit_address(bit))
}

/// Where `@Ri` or Rn may stand.
pub fn working_addresses<M: Cells>(state: &State<M>, working: Working) -> Addresses
    ensures { result ≡ operands.working_addresses state.now working }
{
    match working {
        Working::Indirect(pointer) => Addresses::InRam(pointed_addresses(state, pointer)),
        Working::Register(register) => {
            Addresses::InRam(register_addresses(state, number_of_register(register)))
        }
    }
}

/// Where an operand may stand.
pub fn addresses_of<M: Cells>(state: &State<M>, memory: Memory) -> Addresses
    ensures { result ≡ operands.addresses_of state.now memory }
{
    match memory {
        Memory::Direct(direct) => direct_addresses(direct),
        Memory::Working(working) => working_addresses(state, working),
    }
}

/// Where JMP @A+DPTR may go, and where MOVC A,@A+DPTR may read.
#[tactic(auto, unfolding(crate::specs::Operands::jump_targets))]
pub fn jump_targets<M: Cells>(state: &State<M>) -> Vs16
    ensures { result ≡ operands.jump_targets state.now }
{
    let pointer = w16::pair(&state.dpl.set, &state.dph.set);
    pointer.add(&w16::pair(&state.a.set, &Vs8::one(0)))
}
