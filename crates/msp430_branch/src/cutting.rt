//! Cuts of states.

ghost use Rattle.std.specs.Prelude.{◌≡◌, ◌-◌, ◌<◌, if◌then◌else◌, nat_lt, length, true, false, None, Some};
ghost use Rattle.msp430_chip.specs.Arithmetic as chip;
ghost use Rattle.msp430_branch.specs.Cuts as cuts;

use crate::conditions::{bits_where, may_be, taken_by};
use crate::window::Window;
use crate::windows::window_of;
use entry_value::{Cells, Word};
use msp430_decode::{Condition, Width};
use msp430_state::{FlagFact, State};
use value_bits::w16;
use value_set::{Vs8, Vs16};

/// The words in a window, or the words with a low byte in it and the high byte 0.
fn cut_set(width: Width, set: &Vs16, window: &Window) -> Option<Vs16>
    requires { window.now.low < chip.modulus width }
    ensures { result ≡ cuts.cut_set width set.now window.now }
{
    match width {
        Width::Word => set.cut(window.low, window.len),
        Width::Byte => {
            let bytes = w16::low(set).cut(window.low as u8, window.len)?;
            Some(w16::pair(&bytes, &Vs8::one(0)))
        }
    }
}

/// Where R4 to R15 hold the register of a fact.
fn place_of(fact: &FlagFact) -> usize
    ensures { result ≡ fact.now.register - 4 }
{
    (fact.register as usize).saturating_sub(4)
}

/// Whether one of R4 to R15 stands at a place.
fn is_held(registers: &[Word; 12], place: usize) -> bool
    ensures value { result ≡ nat_lt place (length registers.now) }
    ensures long { length registers.now ≡ 12 }
{
    place < 12
}

/// Cuts the register that the flags speak of. Where it has no such value, answers `false` and leaves all as it was.
fn cut_register<M: Cells>(state: &mut State<M>, condition: Condition, taken: bool) -> bool
    ensures value { cuts.register_cut state.old.fact condition taken state.old ≡ (if result then Some state.new else None) }
    ensures kept { result ≡ false → state.new ≡ state.old }
    ensures bits { state.new.status ≡ state.old.status }
{
    let Some(fact) = state.fact else {
        return true;
    };
    let Some(window) = window_of(condition, taken, &fact) else {
        return true;
    };
    let place = place_of(&fact);
    if !is_held(&state.registers, place) {
        return true;
    }
    match cut_set(fact.width, &state.registers[place].set, &window) {
        Some(set) => {
            state.registers[place].set = set;
            true
        }
        None => false,
    }
}

/// Makes of what is known of a state what is known where a jump is taken, or isn't. Where that can't be, answers `false`
/// and leaves all as it was.
#[tactic(auto, unfolding(crate::specs::Cuts::known_cut))]
pub fn cut<M: Cells>(state: &mut State<M>, condition: Condition, taken: bool) -> bool
    ensures value { cuts.known_cut condition taken state.old ≡ (if result then Some state.new else None) }
    ensures kept { result ≡ false → state.new ≡ state.old }
{
    if !may_be(taken_by(condition, &state.status), taken) {
        return false;
    }
    if !cut_register(state, condition, taken) {
        return false;
    }
    state.status.bits = bits_where(condition, taken, &state.status.bits);
    true
}
