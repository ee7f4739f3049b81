//! Rows of instructions.

use crate::sets::{number_of, words_of};
use crate::showing::is_access;
use crate::states::{is_interrupt, is_same, put_all, state_of};
use abs_memory::CellList;
use call_context::Frame;
use chip_flow::Kept;
use image::Image;
use mcs51_control::goes_back;
use mcs51_decode::{Instr, decode};
use mcs51_flow::{Ran, Way, run};
use mcs51_state::State;
use no_memory::Memory;
use row_parts::CodeRow;
use std::alloc::Global;

/// Whether the accesses of a row are those of the instruction, in order.
fn are_shown(ran: &Ran<CellList>, words: &str) -> bool {
    let items = ran.items.as_slice();
    let mut at = 0usize;
    for word in words.split(' ') {
        if word.is_empty() || word.contains('=') || word == "never" {
            continue;
        }
        match items.get(at) {
            Some(item) if is_access(item, word) => at = at.wrapping_add(1),
            _ => return false,
        }
    }
    items.len() == at
}

/// Where a row says that the instruction goes on.
fn counter_of(words: &str) -> &str {
    for word in words.split(' ') {
        if let Some(("PC", place)) = word.split_once('=') {
            return place;
        }
    }
    ""
}

/// Whether an instruction goes on at a place, in a state in which this is known; none, where it never does.
fn goes_on(
    way: &Way<Kept<State<CellList>>>,
    following: u16,
    place: &str,
    wanted: Option<&State<CellList>>,
) -> bool {
    let found = match way {
        Way::Lands { targets, behind } => match words_of(place) {
            Some(set) if set.within(targets) && targets.within(&set) => Some(behind),
            _ => return false,
        },
        Way::Goes { target, on, jumped } => match number_of(place) {
            Some(place) if place == following => on.as_ref(),
            Some(place) if place == *target => jumped.as_ref(),
            _ => return false,
        },
    };
    match (found, wanted) {
        (Some(found), Some(wanted)) => is_same(found.state(), wanted),
        (None, None) => true,
        _ => false,
    }
}

/// Whether RETI goes back to a state in which this is known.
fn is_back(
    frame: &Frame,
    at: &State<CellList>,
    ran: &Ran<CellList>,
    wanted: &State<CellList>,
) -> bool {
    match &ran.way {
        Way::Lands { behind, .. } => {
            goes_back(true, frame, at) && is_same(behind.state(), wanted)
        }
        Way::Goes { .. } => false,
    }
}

/// Whether an instruction leads on as a row says, to a state in which this is known.
fn leads_on(
    ran: &Ran<CellList>,
    frame: &Frame,
    at: &State<CellList>,
    pc: u16,
    instr: &Instr,
    wanted: &State<CellList>,
    after: &str,
) -> bool {
    let place = counter_of(after);
    if place == "back" {
        return is_back(frame, at, ran, wanted);
    }
    let returns = matches!(instr, Instr::ReturnFromInterrupt);
    if returns && goes_back(is_interrupt(frame), frame, at) {
        return false;
    }
    let wanted = if after.ends_with("never") {
        None
    } else {
        Some(wanted)
    };
    goes_on(&ran.way, instr.following(pc), place, wanted)
}

/// A state with what words say of it, but for PC.
fn changed(
    alloc: Global,
    at: &State<CellList>,
    words: &str,
) -> Result<Option<State<CellList>>, Memory> {
    let mut state = at.copy(alloc)?;
    if put_all(&mut state, words)? {
        Ok(Some(state))
    } else {
        Ok(None)
    }
}

/// Whether an instruction does what a row says.
fn does(
    alloc: Global,
    image: &Image,
    pc: u16,
    instr: &Instr,
    frame: &Frame,
    at: &State<CellList>,
    after: &str,
) -> Result<bool, Memory> {
    let Some(wanted) = changed(alloc, at, after)? else {
        return Ok(false);
    };
    let ran = run(alloc, image, is_interrupt(frame), at, pc, instr)?;
    Ok(are_shown(&ran, after) && leads_on(&ran, frame, at, pc, instr, &wanted, after))
}

/// Whether a row of an instruction holds.
pub fn runs(alloc: Global, line: &str) -> Result<bool, Memory> {
    let Some(row) = CodeRow::of(alloc, line)? else {
        return Ok(false);
    };
    let (words, after) = row.rest.split_once('>').unwrap_or(("", ""));
    let (Ok((instr, _)), Some((frame, at))) = (decode(&row.image, row.pc), state_of(alloc, words)?)
    else {
        return Ok(false);
    };
    does(alloc, &row.image, row.pc, &instr, &frame, &at, after)
}
