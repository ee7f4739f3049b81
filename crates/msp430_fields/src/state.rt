//! States.

ghost use Rattle.std.specs.Prelude.{◌≡◌, ◌≤◌, ◌++◌, IfOk, OnOk};
ghost use Rattle.std.specs.Option.{option_map};
ghost use Rattle.msp430_fields.specs.Fronts.{fields_in_front};
ghost use Rattle.msp430_fields.specs.States as fields;

use crate::fact::FactField;
use crate::nodes::{is_framed, is_node};
use crate::parts::{BitField, SpField, StatusField};
use crate::places::Registers;
use crate::registers::{push_registers, read_registers};
use call_context::Node;
use entry_value::{Cells, Word};
use msp430_state::{FlagFact, State, Status};
use no_memory::Memory;
use std::alloc::{AllocError, Global};
use text_fields::{push_front, read_front};
use value_bits::Tri;
use value_set::Vs16;
use value_text::{RamField, push_memory, read_memory};

/// What stands in front of the memory: SP, SR, L, R4 to R15, and F.
type Front = (Vs16, (Status, (Tri, ([Word; 12], Option<FlagFact>))));

/// The fields in front of a text, and the text behind them.
fn read_fields(framed: bool, text: &[u8]) -> Option<(Front, &[u8])>
    ensures { option_map (λ x. (x.0, x.1.now)) result ≡ fields_in_front framed text.now }
{
    let Some(front) = read_front(&SpField, b"SP=", b' ', text) else {
        return None;
    };
    let (sp, text) = front;
    let Some((status, text)) = read_front(&StatusField { framed }, b"SR=", b' ', text) else {
        return None;
    };
    let Some((late, text)) = read_front(&BitField, b"L=", b' ', text) else {
        return None;
    };
    let Some(front) = read_registers(framed, text) else {
        return None;
    };
    let (registers, text) = front;
    let Some((fact, text)) = read_front(&FactField, b"F=", b' ', text) else {
        return None;
    };
    Some(((sp, (status, (late, (registers, fact)))), text))
}

/// The state that a text spells, in an interrupt's frame or in none, with RAM from an address to another.
fn read_known<M: Cells>(
    alloc: Global,
    framed: bool,
    lo: u16,
    hi: u16,
    text: &[u8],
) -> Result<Option<State<M>>, Memory>
    requires { lo ≤ hi }
    ensures { IfOk result (λ found. found ≡ (fields.known_field framed lo hi).value text.now) }
{
    let Some(front) = read_fields(framed, text) else {
        return Ok(None);
    };
    let ((sp, (status, (late, (registers, fact)))), text) = front;
    let ram = RamField::new(Registers, framed, lo, hi);
    let Some((cells, touched)) = read_memory(alloc, ram, text)? else {
        return Ok(None);
    };
    Ok(Some(State {
        sp,
        status,
        late,
        registers,
        fact,
        cells,
        touched,
    }))
}

/// The state of a node that a text spells, with RAM from an address to another, if it is one of the chip.
pub fn read_state<M: Cells>(
    alloc: Global,
    lo: u16,
    hi: u16,
    node: &Node,
    text: &[u8],
) -> Result<Option<State<M>>, Memory>
    requires { lo ≤ hi }
    ensures { IfOk result (λ found. found ≡ fields.state_in lo hi node.now text.now) }
{
    if !is_node(node) {
        return Ok(None);
    }
    read_known(alloc, is_framed(node), lo, hi, text)
}

/// Adds a state.
pub fn push_state<M: Cells>(state: &State<M>, out: &mut Vec<u8>) -> Result<(), AllocError>
    ensures { OnOk result (out.new.items ≡ out.old.items ++ fields.known_text state.now) }
{
    push_front(&SpField, b"SP=", b' ', &state.sp, out)?;
    push_front(
        &StatusField { framed: true },
        b"SR=",
        b' ',
        &state.status,
        out,
    )?;
    push_front(&BitField, b"L=", b' ', &state.late, out)?;
    push_registers(&state.registers, out)?;
    push_front(&FactField, b"F=", b' ', &state.fact, out)?;
    push_memory(Registers, &state.cells, &state.touched, out)
}
