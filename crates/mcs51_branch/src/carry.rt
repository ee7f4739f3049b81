//! CY as a jump sees it, and as CJNE writes it.

ghost use Rattle.std.specs.Prelude.{◌≡◌, ℕ};
ghost use Rattle.value_bits.specs.Bits as bits;
ghost use Rattle.mcs51_branch.specs.Jumps as jumps;
ghost use Rattle.mcs51_branch.specs.Ways.{IsWay};

use crate::places::cut_place;
use crate::window::order_window;
use entry_value::Cells;
use mcs51_state::{CarryFact, State};
use no_memory::Memory;
use value_bits::{Tri, w8};
use value_set::Vs8;

/// Where CY stands among the bits of PSW that are held.
const CARRY: usize = 5;

/// Whether what is known of a bit allows a value.
pub(crate) fn may_be(known: Tri, flag: bool) -> bool
    ensures { result ≡ bits.may_be known flag }
{
    match known {
        Tri::Zero => !flag,
        Tri::One => flag,
        Tri::Either => true,
    }
}

pub(crate) fn known_flag(flag: bool) -> Tri
    ensures { result ≡ bits.known_flag flag }
{
    if flag { Tri::One } else { Tri::Zero }
}

/// Whether the first byte is less.
#[tactic(auto, unfolding(crate::specs::Jumps::is_less))]
pub(crate) fn is_less(x: &Vs8, y: &Vs8) -> Tri
    ensures { result ≡ jumps.is_less x.now y.now }
{
    match w8::at_least(x, y) {
        Tri::Zero => Tri::One,
        Tri::One => Tri::Zero,
        Tri::Either => Tri::Either,
    }
}

/// Keeps what a jump saw of CY.
#[tactic(auto, unfolding(crate::specs::Jumps::with_seen_carry))]
fn see_carry<M: Cells>(state: &mut State<M>, carry: bool)
    ensures { state.new ≡ jumps.with_seen_carry carry state.old }
{
    state.psw.bits[CARRY] = known_flag(carry);
}

/// Writes CY, with what it says of a byte.
#[tactic(auto, unfolding(crate::specs::Jumps::with_carry_written))]
pub(crate) fn write_carry<M: Cells>(state: &mut State<M>, carry: Tri, fact: Option<CarryFact>)
    ensures { state.new ≡ jumps.with_carry_written carry fact state.old }
{
    state.psw.bits[CARRY] = carry;
    state.psw.entry = None;
    state.carry_fact = fact;
}

/// Cuts the byte that CY speaks of.
fn cut_by_fact<M: Cells>(state: &mut State<M>, carry: bool) -> Result<bool, Memory>
    ensures { IsWay (jumps.fact_cut state.old.carry_fact carry state.old) result state.old state.new }
{
    match state.carry_fact {
        None => Ok(true),
        Some(fact) => cut_place(state, fact.compared, order_window(carry, fact.bound)),
    }
}

/// Goes on where CY is so.
pub(crate) fn cut_by_carry<M: Cells>(state: &mut State<M>, carry: bool) -> Result<bool, Memory>
    ensures { IsWay (jumps.carry_cut carry state.old) result state.old state.new }
{
    if !may_be(state.psw.bits[CARRY], carry) {
        return Ok(false);
    }
    let goes = cut_by_fact(state, carry)?;
    if goes {
        see_carry(state, carry);
    }
    Ok(goes)
}
