//! Writes where operands may stand.

ghost use Rattle.std.specs.Prelude.{◌≡◌, OnOk};
ghost use Rattle.mcs51_state.specs.Writing as writing;

use crate::addresses::Addresses;
use crate::ram::write_ram;
use crate::registers::write_register;
use crate::state::State;
use entry_value::{Byte, Cells};
use mcs51_chip::sfr_at;
use no_memory::Memory;

/// Writes a byte where an operand may stand. In an interrupt's frame bytes of RAM that may be written are touched. Behind an
/// error the state is of no use.
#[tactic(auto, unfolding(crate::specs::Writing::byte_written))]
pub fn write_byte<M: Cells>(
    framed: bool,
    state: &mut State<M>,
    addresses: &Addresses,
    byte: &Byte,
) -> Result<(), Memory>
    ensures { OnOk result (state.new ≡ writing.byte_written framed addresses.now byte.now state.old) }
{
    match addresses {
        Addresses::InRam(at) => write_ram(framed, state, at, byte),
        Addresses::InSfr(register) => {
            write_register(state, sfr_at(*register), byte);
            Ok(())
        }
    }
}

/// Writes DPTR by its two bytes.
pub fn set_data_pointer<M: Cells>(state: &mut State<M>, low: &Byte, high: &Byte)
    ensures { state.new ≡ writing.data_pointer_written low.now high.now state.old }
{
    state.dpl = *low;
    state.dph = *high;
}
