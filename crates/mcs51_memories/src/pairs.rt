//! Two registers at once.

ghost use Rattle.std.specs.Prelude.{◌≡◌};
ghost use Rattle.mcs51_memories.specs.Pairs as pairs;

use entry_value::Cells;
use mcs51_results::{MadePair, divided_made, multiplied_made, pointer_increased};
use mcs51_state::{State, one_byte, set_accumulator, set_data_pointer, set_status};

/// MOV of a number to DPTR.
#[tactic(auto, unfolding(crate::specs::Pairs::pointer_loaded))]
pub fn load_data_pointer<M: Cells>(state: &mut State<M>, value: u16)
    ensures { state.new ≡ pairs.pointer_loaded value state.old }
{
    let low = one_byte((value % 256) as u8);
    let high = one_byte((value / 256) as u8);
    set_data_pointer(state, &low, &high);
}

/// INC of DPTR.
#[tactic(auto, unfolding(crate::specs::Pairs::pointer_raised))]
pub fn increment_data_pointer<M: Cells>(state: &mut State<M>)
    ensures { state.new ≡ pairs.pointer_raised state.old }
{
    let (low, high) = pointer_increased(&state.dpl, &state.dph);
    set_data_pointer(state, &low, &high);
}

/// Writes the accumulator, B and PSW.
fn write_pair<M: Cells>(state: &mut State<M>, made: &MadePair)
    ensures { state.new ≡ pairs.with_pair made.now state.old }
{
    set_status(state, made.psw);
    state.b = made.b;
    set_accumulator(state, &made.a);
}

/// MUL.
#[tactic(auto, unfolding(crate::specs::Pairs::multiplied_known))]
pub fn multiply<M: Cells>(state: &mut State<M>)
    ensures { state.new ≡ pairs.multiplied_known state.old }
{
    let made = multiplied_made(&state.a, &state.b, &state.psw);
    write_pair(state, &made);
}

/// DIV.
#[tactic(auto, unfolding(crate::specs::Pairs::divided_known))]
pub fn divide<M: Cells>(state: &mut State<M>)
    ensures { state.new ≡ pairs.divided_known state.old }
{
    let made = divided_made(&state.a, &state.b, &state.psw);
    write_pair(state, &made);
}
