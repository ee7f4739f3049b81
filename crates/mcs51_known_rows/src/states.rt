//! States, as a row writes them.

use crate::naming::put;
use crate::sets::number_of;
use abs_memory::CellList;
use call_context::Frame;
use mcs51_state::State;
use no_memory::Memory;
use std::alloc::Global;

/// Whether both say the same.
pub fn is_same(one: &State<CellList>, other: &State<CellList>) -> bool {
    one.within(other) && other.within(one)
}

/// The frame that a word says.
fn frame_of(sp: &str) -> Frame {
    Frame::Irq {
        vector: 0,
        sp: number_of(sp),
        level: 1,
    }
}

/// A state behind a reset, but for what words say, and its frame.
pub fn state_of(alloc: Global, words: &str) -> Result<Option<(Frame, State<CellList>)>, Memory> {
    let mut state = State::first(alloc)?;
    let mut frame = Frame::Base;
    for word in words.split(' ') {
        match word.split_once('=') {
            Some(("frame", sp)) => frame = frame_of(sp),
            Some((name, value)) => {
                if !put(&mut state, name, value)? {
                    return Ok(None);
                }
            }
            None if word.is_empty() => {}
            None => return Ok(None),
        }
    }
    Ok(Some((frame, state)))
}

/// Whether a frame is an interrupt's.
pub fn is_interrupt(frame: &Frame) -> bool {
    matches!(frame, Frame::Irq { .. })
}

/// Puts all that words say into a state, but for PC.
pub fn put_all(state: &mut State<CellList>, words: &str) -> Result<bool, Memory> {
    for word in words.split(' ') {
        if let Some((name, value)) = word.split_once('=')
            && name != "PC"
            && !put(state, name, value)?
        {
            return Ok(false);
        }
    }
    Ok(true)
}

/// Whether a state is another one, but for what words say of it.
pub fn is_changed(
    found: &State<CellList>,
    mut from: State<CellList>,
    words: &str,
) -> Result<bool, Memory> {
    Ok(put_all(&mut from, words)? && is_same(found, &from))
}

/// Whether what is known of every state in a frame is what a row says.
pub fn is_top(alloc: Global, words: &str, after: &str) -> Result<bool, Memory> {
    let Some((frame, first)) = state_of(alloc, words)? else {
        return Ok(false);
    };
    let top = State::top(alloc, &frame)?;
    is_changed(&top, first, after)
}
