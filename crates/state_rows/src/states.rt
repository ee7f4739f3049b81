//! States of either chip, read and written.

use crate::rows::halves;
use abs_memory::CellList;
use call_context::Node;
use no_memory::Memory;
use node_fields::Outside;
use std::alloc::{AllocError, Global};

/// What rows ask of a chip's states.
pub trait KnownState: Drop {
    /// The state that a text is at a node.
    fn read(alloc: Global, node: &Node, text: &str) -> Result<Option<Self>, Memory>
    where
        Self: Sized;

    /// Adds the text of a state.
    fn push(&self, out: &mut Vec<u8>) -> Result<(), AllocError>;

    /// The first field of a state that isn't within that of another.
    fn outside(&self, alloc: Global, held: &Self) -> Result<Option<Outside>, Memory>;
}

impl KnownState for msp430_state::State<CellList> {
    fn read(
        alloc: Global,
        node: &Node,
        text: &str,
    ) -> Result<Option<msp430_state::State<CellList>>, Memory> {
        msp430_fields::read_state(alloc, 0x0200, 0x09FF, node, text.as_bytes())
    }

    fn push(&self, out: &mut Vec<u8>) -> Result<(), AllocError> {
        msp430_fields::push_state(self, out)
    }

    fn outside(
        &self,
        alloc: Global,
        held: &msp430_state::State<CellList>,
    ) -> Result<Option<Outside>, Memory> {
        msp430_fields::first_outside(alloc, self, held)
    }
}

impl KnownState for mcs51_state::State<CellList> {
    fn read(
        alloc: Global,
        node: &Node,
        text: &str,
    ) -> Result<Option<mcs51_state::State<CellList>>, Memory> {
        mcs51_fields::read_state(alloc, node, text.as_bytes())
    }

    fn push(&self, out: &mut Vec<u8>) -> Result<(), AllocError> {
        mcs51_fields::push_state(self, out)
    }

    fn outside(
        &self,
        alloc: Global,
        held: &mcs51_state::State<CellList>,
    ) -> Result<Option<Outside>, Memory> {
        mcs51_fields::first_outside(alloc, self, held)
    }
}

/// Adds a field, or one of its name with this value.
fn push_field(text: &mut String, field: &str, name: &str, value: &str) -> Result<(), AllocError> {
    match field.split_once('=') {
        Some((held, _)) if held == name => write!(text, "{name}={value}"),
        _ => text.push_str(field),
    }
}

/// The text of a state, with this value in the field of a name.
pub fn changed(alloc: Global, first: &str, name: &str, value: &str) -> Result<String, AllocError> {
    let mut text = String::new(alloc);
    for field in first.split(' ') {
        if !text.is_empty() {
            text.push(' ')?;
        }
        push_field(&mut text, field, name, value)?;
    }
    Ok(text)
}

/// Adds the state that a text is at a node, and tells whether it is one.
pub fn push_state_of<S: KnownState>(
    alloc: Global,
    out: &mut Vec<u8>,
    node: &Node,
    text: &str,
) -> Result<bool, Memory> {
    let Some(state) = S::read(alloc, node, text)? else {
        return Ok(false);
    };
    state.push(out)?;
    Ok(true)
}

/// Adds a field's name and both values.
fn push_told(out: &mut Vec<u8>, told: &Outside) -> Result<(), AllocError> {
    for part in [&told.field, &told.posted, &told.held] {
        if !out.is_empty() {
            out.push(b' ')?;
        }
        out.extend_from_slice(part.as_slice())?;
    }
    Ok(())
}

/// Adds the field of one state that is told as not within that of another, its name and both values, and tells whether one is.
/// The other state is within itself.
fn push_outside<S: KnownState>(
    alloc: Global,
    out: &mut Vec<u8>,
    posted: &S,
    held: &S,
) -> Result<bool, Memory> {
    if held.outside(alloc, held)?.is_some() {
        return Ok(false);
    }
    let Some(told) = posted.outside(alloc, held)? else {
        return Ok(false);
    };
    let pushed = push_told(out, &told);
    drop(told);
    pushed?;
    Ok(true)
}

/// The first state of a chip with this value in the field of a name, if it is one at a node.
fn read_changed<S: KnownState>(
    alloc: Global,
    node: &Node,
    first: &str,
    name: &str,
    value: &str,
) -> Result<Option<S>, Memory> {
    let text = changed(alloc, first, name, value)?;
    S::read(alloc, node, text.as_str())
}

/// Adds the field that is told where the first state has one value there, and then another.
pub fn push_outside_of<S: KnownState>(
    alloc: Global,
    out: &mut Vec<u8>,
    node: &Node,
    first: &str,
    asked: &str,
) -> Result<bool, Memory> {
    let (name, values) = halves(asked);
    let (posted, held) = halves(values);
    let posted = read_changed::<S>(alloc, node, first, name, posted)?;
    let held = read_changed::<S>(alloc, node, first, name, held)?;
    match posted.zip(held) {
        Some((posted, held)) => push_outside(alloc, out, &posted, &held),
        None => Ok(false),
    }
}
