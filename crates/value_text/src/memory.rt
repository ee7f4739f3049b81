//! The memory of a state: its cells of RAM and its touched ranges.

ghost use Rattle.std.specs.Prelude.{◌≡◌, ◌++◌, ◌^◌, ◌<◌, ◌≤◌, ℕ, List, IfOk, OnOk};
ghost use Rattle.std.specs.Option.{option_map};
ghost use Rattle.entry_value.specs.Cells.{CellMap};
ghost use Rattle.value_text.specs.Cells.{cells_field, map_of};
ghost use Rattle.value_text.specs.Memories as fields;

use crate::cells::RamField;
use crate::ram::{push_cells, read_cells};
use crate::ranges::{push_ranges, read_ranges};
use crate::words::Places;
use entry_value::Cells;
use irq_frames::Ranges;
use no_memory::Memory;
use node_fields::{Outside, named_field};
use std::alloc::{AllocError, Global};
use text_fields::{behind, cut};

/// Touched ranges behind their name, of which there are some in an interrupt's frame alone.
fn read_touched<P: Places>(
    alloc: Global,
    ram: RamField<P>,
    text: &[u8],
) -> Result<Option<Ranges>, Memory>
    ensures { IfOk result (λ found. found ≡ (fields.touched_named (P.width ram.places) ram.framed ram.lo ram.hi).value text.now) }
{
    let Some(text) = behind(b"T=", text) else {
        return Ok(None);
    };
    let Some(touched) = read_ranges(alloc, ram.places.digits(), ram.lo, ram.hi, text)? else {
        return Ok(None);
    };
    if ram.framed || touched.list().is_empty() {
        Ok(Some(touched))
    } else {
        Ok(None)
    }
}

/// Cells behind their name.
fn read_named_cells<P: Places, M: Cells>(
    alloc: Global,
    ram: RamField<P>,
    text: &[u8],
) -> Result<Option<M>, Memory>
    requires ram { ram.lo ≤ ram.hi }
    requires short { ram.hi < 16 ^ P.width ram.places }
    ensures { IfOk result (λ found. option_map (λ cells. M.map cells) found
        ≡ option_map (map_of ram.lo ram.hi) ((fields.cells_named (cells_field (P.width ram.places)
        (P.names ram.places) ram.framed (P.keeps ram.places) ram.lo ram.hi)).value text.now)) }
{
    let Some(text) = behind(b"M=", text) else {
        return Ok(None);
    };
    read_cells(alloc, ram, text)
}

/// The cells and the touched ranges of a RAM that a text spells.
pub fn read_memory<P: Places, M: Cells>(
    alloc: Global,
    ram: RamField<P>,
    text: &[u8],
) -> Result<Option<(M, Ranges)>, Memory>
    requires ram { ram.lo ≤ ram.hi }
    requires short { ram.hi < 16 ^ P.width ram.places }
    ensures { IfOk result (λ found. option_map {U = CellMap × List (ℕ × ℕ)} (λ x. (M.map x.0, x.1)) found
        ≡ option_map (fields.memory_of ram.lo ram.hi) ((fields.memory_field (P.width ram.places)
        (cells_field (P.width ram.places) (P.names ram.places) ram.framed (P.keeps ram.places) ram.lo ram.hi) ram.framed ram.lo ram.hi).value text.now)) }
{
    let Some((cells, touched)) = cut(text, b' ') else {
        return Ok(None);
    };
    let Some(cells) = read_named_cells(alloc, ram, cells)? else {
        return Ok(None);
    };
    let Some(touched) = read_touched(alloc, ram, touched)? else {
        return Ok(None);
    };
    Ok(Some((cells, touched)))
}

/// Adds cells and touched ranges.
pub fn push_memory<P: Places, M: Cells>(
    places: P,
    cells: &M,
    touched: &Ranges,
    out: &mut Vec<u8>,
) -> Result<(), AllocError>
    ensures { OnOk result (out.new.items ≡ out.old.items
        ++ fields.memory_text (P.width places) (P.names places) ((M.map cells.now).cells, touched.now)) }
{
    out.extend_from_slice(b"M=")?;
    push_cells(places, cells, out)?;
    out.extend_from_slice(b" T=")?;
    push_ranges(places.digits(), touched, out)?;
    Ok(())
}

/// The first of the cells and the touched ranges that isn't within that of another state.
pub fn memory_outside<P: Places, M: Cells>(
    alloc: Global,
    places: P,
    new: &M,
    held: &M,
    touched: &Ranges,
    kept: &Ranges,
) -> Result<Option<Outside>, Memory>
    ensures { IfOk result (λ found. found ≡ fields.memory_outside (P.width places) (P.names places)
        ((M.map new.now).cells, touched.now) ((M.map held.now).cells, kept.now)) }
{
    if !new.within(held) {
        let mut posted = Vec::new(alloc);
        push_cells(places, new, &mut posted)?;
        let mut text = Vec::new(alloc);
        push_cells(places, held, &mut text)?;
        return Ok(Some(named_field(alloc, b"M", posted, text)?));
    }
    if !touched.within(kept) {
        let mut posted = Vec::new(alloc);
        push_ranges(places.digits(), touched, &mut posted)?;
        let mut text = Vec::new(alloc);
        push_ranges(places.digits(), kept, &mut text)?;
        return Ok(Some(named_field(alloc, b"T", posted, text)?));
    }
    Ok(None)
}
