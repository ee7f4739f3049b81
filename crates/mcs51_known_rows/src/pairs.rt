//! Rows of two states.

use crate::sets::number_of;
use crate::states::{is_changed, is_interrupt, state_of};
use abs_memory::CellList;
use call_context::Frame;
use mcs51_resume::resume;
use mcs51_state::State;
use no_memory::Memory;
use std::alloc::Global;

/// The marks that a row is widened to.
const MARKS: [u8; 3] = [0, 1, 5];

/// SP where an interrupt came.
const SP: u8 = 7;

/// Two states with `+` between them, and the frame of the first one.
fn states_of(
    alloc: Global,
    words: &str,
) -> Result<Option<(Frame, State<CellList>, State<CellList>)>, Memory> {
    let (first, second) = words.split_once(" + ").unwrap_or(("", "?"));
    match (state_of(alloc, first)?, state_of(alloc, second)?) {
        (Some((frame, first)), Some((_, second))) => Ok(Some((frame, first, second))),
        _ => Ok(None),
    }
}

/// Two states joined, or widened.
fn grown(
    alloc: Global,
    form: &str,
    held: &State<CellList>,
    new: &State<CellList>,
) -> Result<State<CellList>, Memory> {
    if form == "join" {
        Ok(held.join(alloc, new)?)
    } else {
        Ok(held.widen(alloc, new, &MARKS)?)
    }
}

/// Whether two states are joined, or widened, to what a row says, and it says something just where the second one isn't
/// within the first.
pub fn grows(alloc: Global, form: &str, words: &str, after: &str) -> Result<bool, Memory> {
    let Some((_, held, new)) = states_of(alloc, words)? else {
        return Ok(false);
    };
    let found = grown(alloc, form, &held, &new)?;
    let is_within = new.within(&held);
    let is_changed = is_changed(&found, held, after)?;
    Ok(is_changed && is_within == after.trim().is_empty())
}

/// Whether a suspended state goes on as a row says.
pub fn resumes(alloc: Global, words: &str, after: &str) -> Result<bool, Memory> {
    let (pc, words) = words.split_once(' ').unwrap_or(("", ""));
    let (Some(pc), Some((frame, at, exit))) = (number_of(pc), states_of(alloc, words)?) else {
        return Ok(false);
    };
    let found = resume(alloc, is_interrupt(&frame), &at, pc, SP, &exit)?;
    is_changed(&found, at, after)
}
