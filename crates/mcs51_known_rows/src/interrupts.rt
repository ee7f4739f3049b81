//! Rows of interrupts.

use crate::sets::{byte_number, number_of};
use crate::states::{is_changed, state_of};
use mcs51_entry::{Coming, comings, entered};
use no_memory::Memory;
use std::alloc::Global;
use value_set::Vs8;

/// An interrupt that comes where SP is one number, as `3H=07`.
fn coming_of(word: &str) -> Option<Coming> {
    let (name, sp) = word.split_once('=')?;
    let level = match name.get(1..)? {
        "L" => 1,
        "H" => 2,
        "LH" => 3,
        _ => return None,
    };
    let sp = byte_number(sp)?;
    Some(Coming {
        source: byte_number(name.get(..1)?)?,
        level,
        known_sp: Some(sp),
        sp: Vs8::one(sp),
    })
}

/// Whether the interrupts of a row, and no others, may come in a state.
pub fn come(alloc: Global, words: &str, after: &str) -> Result<bool, Memory> {
    let Some((_, state)) = state_of(alloc, words)? else {
        return Ok(false);
    };
    let found = comings(alloc, &state)?;
    let mut at = 0usize;
    for word in after.split(' ') {
        if word.is_empty() {
            continue;
        }
        match (found.as_slice().get(at), coming_of(word)) {
            (Some(coming), Some(wanted)) if *coming == wanted => at = at.wrapping_add(1),
            _ => return Ok(false),
        }
    }
    Ok(found.as_slice().len() == at)
}

/// Whether the handler of an interrupt knows what a row says.
pub fn enters(alloc: Global, words: &str, after: &str) -> Result<bool, Memory> {
    let (pc, words) = words.split_once(' ').unwrap_or(("", ""));
    let (coming, words) = words.split_once(' ').unwrap_or(("", ""));
    let (Some(pc), Some(coming), Some((_, state))) = (
        number_of(pc),
        coming_of(coming),
        state_of(alloc, words)?,
    ) else {
        return Ok(false);
    };
    let found = entered(alloc, &state, pc, &coming)?;
    is_changed(&found, state, after)
}
