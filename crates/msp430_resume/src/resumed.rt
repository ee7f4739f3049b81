//! Resuming a suspended state.

ghost use Rattle.std.specs.Prelude.{◌≡◌, IfOk};
ghost use Rattle.msp430_resume.specs.Resume.{resumed_known};

use crate::places::{places_of, resume_all};
use crate::status::{resume_fact, resume_status};
use entry_value::Cells;
use irq_frames::{resume_cells, touched_behind};
use msp430_state::State;
use no_memory::Memory;
use std::alloc::Global;
use value_set::Vs16;

/// What is known where a handler's exit resumes the state that its interrupt suspended at `pc` and at the stack pointer `sp`, of
/// which `at` is known. Whether that state is in an interrupt's frame itself is `framed`. A cell of one byte of the exit stays
/// a byte, as in the form of states, where it has no relation.
pub fn resume<M: Cells>(
    alloc: Global,
    framed: bool,
    at: &State<M>,
    pc: u16,
    sp: u16,
    exit: &State<M>,
) -> Result<State<M>, Memory>
    ensures { IfOk result (λ state. state ≡ resumed_known framed at.now pc sp exit.now) }
{
    let places = places_of(at, pc);
    Ok(State {
        sp: Vs16::one(sp),
        status: resume_status(&at.status, &exit.status),
        late: exit.late,
        registers: resume_all(&places, &exit.registers),
        fact: resume_fact(exit, &at.fact),
        cells: resume_cells(alloc, &at.cells, &places, &exit.cells, &exit.touched)?,
        touched: touched_behind(alloc, framed, &at.touched, &exit.touched)?,
    })
}
