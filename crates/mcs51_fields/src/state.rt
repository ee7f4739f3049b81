//! States.

ghost use Rattle.std.specs.Prelude.{◌≡◌, ◌++◌, IfOk, OnOk};
ghost use Rattle.mcs51_fields.specs.States as fields;

use crate::front::{push_first, push_second, push_third, read_fields};
use crate::nodes::{is_framed, is_node};
use crate::places::Remembered;
use call_context::Node;
use entry_value::Cells;
use mcs51_state::State;
use no_memory::Memory;
use std::alloc::{AllocError, Global};
use value_text::{RamField, push_memory, read_memory};

/// The state that a text spells, in an interrupt's frame or in none.
fn read_known<M: Cells>(
    alloc: Global,
    framed: bool,
    text: &[u8],
) -> Result<Option<State<M>>, Memory>
    ensures { IfOk result (λ found. found ≡ (fields.known_field framed).value text.now) }
{
    let Some(front) = read_fields(framed, text) else {
        return Ok(None);
    };
    let (((sp, (a, (b, dpl))), ((dph, (ie, ip)), third)), text) = front;
    let (psw, (levels, (linear_fact, carry_fact))) = third;
    let ram = RamField::new(Remembered, framed, 0, 255);
    let Some((cells, touched)) = read_memory(alloc, ram, text)? else {
        return Ok(None);
    };
    Ok(Some(State {
        sp,
        a,
        b,
        dpl,
        dph,
        ie,
        ip,
        psw,
        levels,
        linear_fact,
        carry_fact,
        cells,
        touched,
    }))
}

/// The state of a node that a text spells, if the node is one of the chip.
pub fn read_state<M: Cells>(
    alloc: Global,
    node: &Node,
    text: &[u8],
) -> Result<Option<State<M>>, Memory>
    ensures { IfOk result (λ found. found ≡ fields.state_in node.now text.now) }
{
    if !is_node(node) {
        return Ok(None);
    }
    read_known(alloc, is_framed(node), text)
}

/// Adds a state.
pub fn push_state<M: Cells>(state: &State<M>, out: &mut Vec<u8>) -> Result<(), AllocError>
    ensures { OnOk result (out.new.items ≡ out.old.items ++ fields.known_text state.now) }
{
    push_first(&state.sp, &state.a, &state.b, &state.dpl, out)?;
    push_second(&state.dph, &state.ie, &state.ip, out)?;
    push_third(
        &state.psw,
        &state.levels,
        &state.linear_fact,
        &state.carry_fact,
        out,
    )?;
    push_memory(Remembered, &state.cells, &state.touched, out)
}
