//! The two ways of each conditional jump.

ghost use Rattle.std.specs.Prelude.{◌≡◌};
ghost use Rattle.mcs51_branch.specs.Jumps as jumps;
ghost use Rattle.mcs51_branch.specs.Ways.{IsWay};

use crate::carry::{cut_by_carry, is_less, write_carry};
use crate::operand::Operand;
use crate::places::{cut_place, cut_to, set_at};
use crate::window::{Window, equality_window};
use entry_value::Cells;
use mcs51_decode::Condition;
use mcs51_state::{CarryFact, Compared, State};
use no_memory::Memory;
use value_set::Vs8;

/// Makes of what is known in front of JC, JNC, JZ, JNZ or SJMP what is known where it is taken, or isn't. Where that can't
/// be, answers `false`. Then, and where memory lacks, all is as it was.
#[tactic(auto, unfolding(crate::specs::Jumps::condition_cut))]
pub fn cut_by_condition<M: Cells>(
    state: &mut State<M>,
    condition: Condition,
    taken: bool,
) -> Result<bool, Memory>
    ensures { IsWay (jumps.condition_cut condition taken state.old) result state.old state.new }
{
    match condition {
        Condition::Carry => cut_by_carry(state, taken),
        Condition::NoCarry => cut_by_carry(state, !taken),
        Condition::Zero => cut_place(state, Compared::Accumulator, equality_window(taken, 0)),
        Condition::NotZero => cut_place(state, Compared::Accumulator, equality_window(!taken, 0)),
        Condition::Always => Ok(taken),
    }
}

/// The numbers of CJNE's operand.
fn numbers_of<M: Cells>(state: &State<M>, operand: &Operand) -> Vs8
    ensures { result ≡ jumps.numbers_of operand.now state.now }
{
    match operand {
        Operand::One(place) => set_at(state, *place),
        Operand::Several(set) => *set,
    }
}

/// What CY says of CJNE's operand behind it.
fn fact_of(operand: &Operand, bound: u8) -> Option<CarryFact>
    ensures { result ≡ jumps.fact_of operand.now bound }
{
    match operand {
        Operand::One(place) => Some(CarryFact {
            compared: *place,
            bound,
        }),
        Operand::Several(_) => None,
    }
}

/// Cuts the operand, or where it stands at one of several places only sees whether anything is left.
fn cut_operand<M: Cells>(
    state: &mut State<M>,
    operand: &Operand,
    window: Window,
) -> Result<bool, Memory>
    ensures { IsWay (jumps.operand_cut operand.now window state.old) result state.old state.new }
{
    match operand {
        Operand::One(place) => cut_place(state, *place, window),
        Operand::Several(set) => Ok(cut_to(window, set).is_some()),
    }
}

/// Makes of what is known in front of CJNE with a constant what is known where it is taken, or isn't: CY is written, and the
/// operand is cut. Where that can't be, answers `false`. Then, and where memory lacks, all is as it was.
#[tactic(auto, unfolding(crate::specs::Jumps::comparison_cut))]
pub fn cut_by_comparison<M: Cells>(
    state: &mut State<M>,
    operand: &Operand,
    value: u8,
    taken: bool,
) -> Result<bool, Memory>
    ensures { IsWay (jumps.comparison_cut operand.now value taken state.old) result state.old state.new }
{
    let carry = is_less(&numbers_of(state, operand), &Vs8::one(value));
    let goes = cut_operand(state, operand, equality_window(!taken, value))?;
    if goes {
        write_carry(state, carry, fact_of(operand, value));
    }
    Ok(goes)
}

/// Makes of what is known in front of `CJNE A,dir` what is known behind it, on both ways, by the numbers of the byte.
#[tactic(auto, unfolding(crate::specs::Jumps::compared_with))]
pub fn compare_with<M: Cells>(state: &mut State<M>, set: &Vs8)
    ensures { state.new ≡ jumps.compared_with set.now state.old }
{
    let carry = is_less(&state.a.set, set);
    write_carry(state, carry, None);
}

/// The numbers of the byte that DJNZ lowered, where it is taken, or isn't, if that can be.
#[tactic(auto, unfolding(crate::specs::Jumps::lowered_cut))]
pub fn lowered(set: &Vs8, taken: bool) -> Option<Vs8>
    ensures { result ≡ jumps.lowered_cut taken set.now }
{
    cut_to(equality_window(!taken, 0), &set.sub(&Vs8::one(1)))
}
