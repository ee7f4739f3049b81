//! Resuming a suspended state.

ghost use Rattle.std.specs.Prelude.{◌≡◌, IfOk};
ghost use Rattle.mcs51_resume.specs.Resume.{resumed_known};

use crate::bytes::resume_byte;
use crate::cells::resume_cells;
use crate::facts::{resume_carry, resume_linear};
use crate::status::resume_status;
use entry_value::Cells;
use irq_frames::touched_behind;
use mcs51_state::State;
use no_memory::Memory;
use std::alloc::Global;
use value_set::Vs8;

/// What is known where a handler's exit resumes the state that its interrupt suspended at `pc` and at the stack pointer `sp`, of
/// which `at` is known. Whether that state is in an interrupt's frame itself is `framed`.
#[tactic(auto, unfolding(crate::specs::Resume::resumed_known))]
pub fn resume<M: Cells>(
    alloc: Global,
    framed: bool,
    at: &State<M>,
    pc: u16,
    sp: u8,
    exit: &State<M>,
) -> Result<State<M>, Memory>
    ensures { IfOk result (λ state. state ≡ resumed_known framed at.now pc sp exit.now) }
{
    Ok(State {
        sp: Vs8::one(sp),
        a: resume_byte(framed, at, pc, &exit.a),
        b: resume_byte(framed, at, pc, &exit.b),
        dpl: resume_byte(framed, at, pc, &exit.dpl),
        dph: resume_byte(framed, at, pc, &exit.dph),
        ie: resume_byte(framed, at, pc, &exit.ie),
        ip: resume_byte(framed, at, pc, &exit.ip),
        psw: resume_status(&at.psw, &exit.psw),
        levels: exit.levels,
        linear_fact: resume_linear(exit, &at.linear_fact),
        carry_fact: resume_carry(exit, &at.carry_fact),
        cells: resume_cells(alloc, framed, at, pc, exit)?,
        touched: touched_behind(alloc, framed, &at.touched, &exit.touched)?,
    })
}
