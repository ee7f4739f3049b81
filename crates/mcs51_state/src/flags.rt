//! Writes to PSW.

ghost use Rattle.std.specs.Prelude.{◌≡◌};
ghost use Rattle.mcs51_state.specs.Writing as writing;

use crate::state::State;
use crate::status::Status;
use entry_value::Cells;
use value_bits::Tri;

/// Writes PSW. The fact of CY goes.
pub fn set_status<M: Cells>(state: &mut State<M>, status: Status)
    ensures { state.new ≡ writing.status_written status state.old }
{
    state.psw = status;
    state.carry_fact = None;
}

/// Sets CY. PSW's relation and the fact of CY go.
pub fn set_carry<M: Cells>(state: &mut State<M>, carry: Tri)
    ensures { state.new ≡ writing.carry_set carry state.old }
{
    state.psw.bits[5] = carry;
    state.psw.entry = None;
    state.carry_fact = None;
}

/// Sets CY, AC and OV. PSW's relation and the fact of CY go.
pub fn set_flags<M: Cells>(state: &mut State<M>, carry: Tri, half: Tri, overflow: Tri)
    ensures { state.new ≡ writing.flags_set carry half overflow state.old }
{
    state.psw.bits[0] = overflow;
    state.psw.bits[4] = half;
    state.psw.bits[5] = carry;
    state.psw.entry = None;
    state.carry_fact = None;
}
