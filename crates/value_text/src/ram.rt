//! Cells of RAM, over any representation of them.

ghost use Rattle.std.specs.Prelude.{◌≡◌, ◌++◌, ◌^◌, ◌<◌, ◌≤◌, IfOk, OnOk};
ghost use Rattle.std.specs.Option.{option_map};
ghost use Rattle.entry_value.specs.Cells.{AreCells};
ghost use Rattle.value_text.specs.Cells as fields;

use crate::cells::{CellField, RamField, listed_cells};
use crate::words::Places;
use entry_value::{Cell, Cells};
use no_memory::Memory;
use std::alloc::{AllocError, Global};
use text_fields::Field;

/// A RAM from an address to another with these cells.
fn ram_of<M: Cells>(alloc: Global, lo: u16, hi: u16, cells: &[Cell]) -> Result<M, Memory>
    requires ram { lo ≤ hi }
    requires are { AreCells lo hi lo cells.now }
    ensures { IfOk result (λ ram. M.map ram ≡ fields.map_of lo hi cells.now) }
{
    let mut ram = M::empty(alloc, lo, hi)?;
    for cell in cells {
        ram.write_one(cell.place, cell.size, cell.word)?;
    }
    Ok(ram)
}

/// The cells of a RAM that a text spells.
pub fn read_cells<P: Places, M: Cells>(
    alloc: Global,
    ram: RamField<P>,
    text: &[u8],
) -> Result<Option<M>, Memory>
    requires ram { ram.lo ≤ ram.hi }
    requires short { ram.hi < 16 ^ P.width ram.places }
    ensures { IfOk result (λ found. option_map (λ cells. M.map cells) found
        ≡ fields.maps_in (P.width ram.places) (P.names ram.places) ram.framed (P.keeps ram.places) ram.lo ram.hi text.now) }
{
    ram.places.names_are_exact();
    let Some(cells) = listed_cells(alloc, ram, text)? else {
        return Ok(None);
    };
    Ok(Some(ram_of(alloc, ram.lo, ram.hi, &cells)?))
}

/// Adds cells.
pub fn push_cells<P: Places, M: Cells>(
    places: P,
    cells: &M,
    out: &mut Vec<u8>,
) -> Result<(), AllocError>
    ensures { OnOk result (out.new.items ≡ out.old.items
        ++ fields.cells_text (P.width places) (P.names places) (M.map cells.now).cells) }
{
    cells.keep_form();
    let field = CellField {
        places,
        framed: true,
    };
    let Some((place, size, word)) = cells.next(0) else {
        out.push(b'-')?;
        return Ok(());
    };
    field.push(&Cell { place, size, word }, out)?;
    let mut from = place as u32 + size as u32;
    while let Some((place, size, word)) = cells.next(from) {
        out.push(b';')?;
        field.push(&Cell { place, size, word }, out)?;
        from = place as u32 + size as u32;
    }
    Ok(())
}
