//! Whether a row holds.

ghost use Rattle.msp430_decode.specs.Table.{IsInstr};

use crate::chips::chip_of;
use crate::naming::put;
use crate::promised::Promised;
use crate::sets::{number_of, words_of};
use crate::showing::are_shown;
use abs_pages::CellPages;
use call_context::Frame;
use chip_analysis::{Cause, Chip};
use chip_flow::{Flow, Followed, Kept, Onward};
use msp430_decode::Instr;
use msp430_flow::Msp430Chip;
use msp430_state::State;
use msp430_text::text;
use no_memory::Memory;
use row_parts::CodeRow;
use std::alloc::Global;
use value_set::Vs16;

/// What stands behind a name, and nothing where the words don't have it.
fn value_of<'a>(words: &'a str, name: &str) -> &'a str {
    for word in words.split(' ') {
        if let Some((front, value)) = word.split_once('=')
            && front == name
        {
            return value;
        }
    }
    ""
}

/// The frame that a row says.
fn frame_of(sp: &str) -> Frame {
    if sp.is_empty() {
        return Frame::Base;
    }
    Frame::Irq {
        vector: 0,
        sp: number_of(sp),
        level: 0,
    }
}

/// Puts all that words say of a state into it, and says whether each one says something.
fn put_all(state: &mut State<CellPages>, words: &str) -> Result<bool, Memory> {
    for word in words.split(' ') {
        if let Some((name, value)) = word.split_once('=')
            && !matches!(
                name,
                "PC" | "Targets" | "Store" | "frame" | "mirror" | "write" | "all"
            )
            && !put(state, name, value)?
        {
            return Ok(false);
        }
    }
    Ok(true)
}

/// Whether both say the same.
fn is_same(one: &State<CellPages>, other: &State<CellPages>) -> bool {
    one.within(other) && other.within(one)
}

/// Whether a set is that of a text.
fn is_set(set: &Vs16, text: &str) -> bool {
    words_of(text) == Some(*set)
}

/// Whether a store is left open as a row says.
fn is_left(store: &Option<Cause>, set: &str) -> bool {
    match store {
        Some(Cause::Store(at)) => is_set(at, set),
        Some(_) => false,
        None => set.is_empty(),
    }
}

/// Whether a way of a jump, of which this is known, is as a row says.
fn is_way(known: &Option<Kept<State<CellPages>>>, wanted: &State<CellPages>, never: bool) -> bool {
    match known {
        Some(known) => !never && is_same(known.state(), wanted),
        None => never,
    }
}

/// Whether an instruction goes on where a row says, in a state in which this is known.
fn goes_on(
    onward: &Onward<Kept<State<CellPages>>>,
    words: &str,
    wanted: &State<CellPages>,
) -> bool {
    let place = value_of(words, "PC");
    match onward {
        Onward::Leaves(behind) => place == "back" && is_same(behind.state(), wanted),
        Onward::Open(targets) => is_set(targets, value_of(words, "Targets")),
        Onward::Lands { targets, behind } => {
            is_set(targets, place) && is_same(behind.state(), wanted)
        },
        Onward::Jumps {
            behind,
            target,
            on,
            jumped,
        } => {
            let never = words.ends_with("never");
            match number_of(place) {
                Some(place) if place == *behind => is_way(on, wanted, never),
                Some(place) if place == *target => is_way(jumped, wanted, never),
                _ => false,
            }
        }
    }
}

/// Whether an instruction does what stands behind `>`, by what stands in front of it.
fn does(
    alloc: Global,
    chip: &Msp430Chip,
    pc: u16,
    instr: &Instr,
    front: &str,
    behind: &str,
) -> Result<bool, Memory>
    requires { IsInstr instr.now }
{
    let (_node, start) = chip.start(alloc)?;
    let mut at = start.state().copy(alloc)?;
    if !put_all(&mut at, front)? || !are_shown(&[], pc, front) {
        return Ok(false);
    }
    let frame = frame_of(value_of(front, "frame"));
    let Followed {
        accesses,
        onward,
        store,
    } = chip.follow(alloc, &frame, &at, pc, instr)?;
    let mut wanted = at;
    Ok(
        put_all(&mut wanted, behind)?
            && are_shown(accesses.as_slice(), pc, behind)
            && is_left(&store, value_of(behind, "Store"))
            && goes_on(&onward, behind, &wanted),
    )
}

/// Whether a line holds. One of another form doesn't.
pub fn holds(alloc: Global, line: &str) -> Result<bool, Memory> {
    let (line, told) = line.split_once(" ; ").unwrap_or((line, ""));
    let Some(row) = CodeRow::of(alloc, line)? else {
        return Ok(false);
    };
    let (front, behind) = row.rest.split_once('>').unwrap_or(("", ""));
    let promised = Promised {
        own: value_of(front, "write"),
        all: value_of(front, "all"),
    };
    let Some(chip) = chip_of(alloc, &row, value_of(front, "mirror"), promised)? else {
        return Ok(false);
    };
    match chip.fetch(row.pc) {
        Some(instr) if text(&instr, row.pc).as_str() == told => {
            does(alloc, &chip, row.pc, &instr, front, behind)
        }
        _ => Ok(false),
    }
}
