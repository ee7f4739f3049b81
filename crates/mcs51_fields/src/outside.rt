//! The first field of a state that isn't within that of another.

ghost use Rattle.std.specs.Prelude.{◌≡◌, IfOk};
ghost use Rattle.mcs51_fields.specs.Outside as fields;

use crate::fact::{CarryField, LinearField};
use crate::parts::{ByteField, LevelsField, SpField, StatusField};
use crate::places::Remembered;
use entry_value::Cells;
use mcs51_state::{State, is_carry_within, is_linear_within};
use no_memory::Memory;
use node_fields::{Outside, told};
use std::alloc::Global;
use value_text::memory_outside;

/// The first of SP, A, B and DPL.
fn first_registers<M: Cells>(
    alloc: Global,
    new: &State<M>,
    held: &State<M>,
) -> Result<Option<Outside>, Memory>
    ensures { IfOk result (λ found. found ≡ fields.first_registers new.now held.now) }
{
    if !new.sp.within(&held.sp) {
        return Ok(Some(told(alloc, &SpField, b"SP", &new.sp, &held.sp)?));
    }
    let field = ByteField { framed: true };
    if !new.a.within(&held.a) {
        return Ok(Some(told(alloc, &field, b"A", &new.a, &held.a)?));
    }
    if !new.b.within(&held.b) {
        return Ok(Some(told(alloc, &field, b"B", &new.b, &held.b)?));
    }
    if !new.dpl.within(&held.dpl) {
        return Ok(Some(told(alloc, &field, b"DPL", &new.dpl, &held.dpl)?));
    }
    Ok(None)
}

/// The first of DPH, IE and IP.
fn second_registers<M: Cells>(
    alloc: Global,
    new: &State<M>,
    held: &State<M>,
) -> Result<Option<Outside>, Memory>
    ensures { IfOk result (λ found. found ≡ fields.second_registers new.now held.now) }
{
    let field = ByteField { framed: true };
    if !new.dph.within(&held.dph) {
        return Ok(Some(told(alloc, &field, b"DPH", &new.dph, &held.dph)?));
    }
    if !new.ie.within(&held.ie) {
        return Ok(Some(told(alloc, &field, b"IE", &new.ie, &held.ie)?));
    }
    if !new.ip.within(&held.ip) {
        return Ok(Some(told(alloc, &field, b"IP", &new.ip, &held.ip)?));
    }
    Ok(None)
}

/// The first of PSW, the levels and the facts.
fn third_fields<M: Cells>(
    alloc: Global,
    new: &State<M>,
    held: &State<M>,
) -> Result<Option<Outside>, Memory>
    ensures { IfOk result (λ found. found ≡ fields.third_fields new.now held.now) }
{
    if !new.psw.within(&held.psw) {
        let field = StatusField { framed: true };
        return Ok(Some(told(alloc, &field, b"PSW", &new.psw, &held.psw)?));
    }
    if !new.levels.within(&held.levels) {
        return Ok(Some(told(alloc, &LevelsField, b"LV", &new.levels, &held.levels)?));
    }
    if !is_linear_within(&new.linear_fact, &held.linear_fact) {
        return Ok(Some(told(
            alloc,
            &LinearField,
            b"K",
            &new.linear_fact,
            &held.linear_fact,
        )?));
    }
    if !is_carry_within(&new.carry_fact, &held.carry_fact) {
        return Ok(Some(told(alloc, &CarryField, b"F", &new.carry_fact, &held.carry_fact)?));
    }
    Ok(None)
}

/// The first field of a state that isn't within that of a held one, in the order of the text.
#[tactic(auto, unfolding(crate::specs::Outside::outside_of))]
pub fn first_outside<M: Cells>(
    alloc: Global,
    new: &State<M>,
    held: &State<M>,
) -> Result<Option<Outside>, Memory>
    ensures { IfOk result (λ found. found ≡ fields.outside_of new.now held.now) }
{
    if let Some(field) = first_registers(alloc, new, held)? {
        return Ok(Some(field));
    }
    if let Some(field) = second_registers(alloc, new, held)? {
        return Ok(Some(field));
    }
    if let Some(field) = third_fields(alloc, new, held)? {
        return Ok(Some(field));
    }
    memory_outside(
        alloc,
        Remembered,
        &new.cells,
        &held.cells,
        &new.touched,
        &held.touched,
    )
}
