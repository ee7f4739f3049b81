//! The first field of a state that isn't within that of another.

ghost use Rattle.std.specs.Prelude.{◌≡◌, IfOk};
ghost use Rattle.msp430_fields.specs.Outside as fields;
ghost use Rattle.msp430_fields.specs.Places.{register_rows};

use crate::fact::{FactField, register_name};
use crate::parts::{BitField, SpField, StatusField, WordField};
use crate::places::Registers;
use entry_value::{Cells, Word};
use known_parts::is_bit_within;
use msp430_state::{State, is_fact_within};
use no_memory::Memory;
use node_fields::{Outside, told};
use std::alloc::Global;
use value_text::memory_outside;

/// The first of SP, SR and the late interrupt.
fn head_outside<M: Cells>(
    alloc: Global,
    new: &State<M>,
    held: &State<M>,
) -> Result<Option<Outside>, Memory>
    ensures { IfOk result (λ found. found ≡ fields.head_outside new.now held.now) }
{
    if !new.sp.within(&held.sp) {
        return Ok(Some(told(alloc, &SpField, b"SP", &new.sp, &held.sp)?));
    }
    if !new.status.within(&held.status) {
        let field = StatusField { framed: true };
        return Ok(Some(told(alloc, &field, b"SR", &new.status, &held.status)?));
    }
    if !is_bit_within(new.late, held.late) {
        return Ok(Some(told(alloc, &BitField, b"L", &new.late, &held.late)?));
    }
    Ok(None)
}

/// The first of R4 to R15.
fn registers_outside(
    alloc: Global,
    new: &[Word; 12],
    held: &[Word; 12],
) -> Result<Option<Outside>, Memory>
    ensures { IfOk result (λ found. found ≡ fields.registers_outside register_rows new.now held.now) }
{
    for i in 0..12 {
        if !new[i].within(&held[i]) {
            let field = WordField { framed: true };
            return Ok(Some(told(alloc, &field, register_name(i), &new[i], &held[i])?));
        }
    }
    Ok(None)
}

/// What the flags say.
fn fact_outside<M: Cells>(
    alloc: Global,
    new: &State<M>,
    held: &State<M>,
) -> Result<Option<Outside>, Memory>
    ensures { IfOk result (λ found. found ≡ fields.fact_outside new.now held.now) }
{
    if !is_fact_within(&new.fact, &held.fact) {
        return Ok(Some(told(alloc, &FactField, b"F", &new.fact, &held.fact)?));
    }
    Ok(None)
}

/// The first field of a state that isn't within that of a held one, in the order of the text.
#[tactic(auto, unfolding(crate::specs::Outside::outside_of))]
pub fn first_outside<M: Cells>(
    alloc: Global,
    new: &State<M>,
    held: &State<M>,
) -> Result<Option<Outside>, Memory>
    ensures { IfOk result (λ found. found ≡ fields.outside_of new.now held.now) }
{
    if let Some(field) = head_outside(alloc, new, held)? {
        return Ok(Some(field));
    }
    if let Some(field) = registers_outside(alloc, &new.registers, &held.registers)? {
        return Ok(Some(field));
    }
    if let Some(field) = fact_outside(alloc, new, held)? {
        return Ok(Some(field));
    }
    memory_outside(
        alloc,
        Registers,
        &new.cells,
        &held.cells,
        &new.touched,
        &held.touched,
    )
}
