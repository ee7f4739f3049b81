//! A book that begins elsewhere than at a chip's start: with nodes and works that are known.

ghost use Rattle.std.specs.Prelude.{◌≡◌, [], OnErr, OnOk, Some};
ghost use Rattle.book_rules.specs.Machine.{IsFirst};
ghost use Rattle.round_core.specs.Claims.{placed};
ghost use Rattle.round_core.specs.Renewal.{state_of, turned};
ghost use Rattle.round_core.specs.Shown.{Shows};

use crate::ahead::Ahead;
use crate::inputs::inputs_of;
use crate::parts::Parts;
use crate::place::Place;
use crate::post::prepare_work;
use crate::spent::Spent;
use call_context::Unit;
use chip_analysis::Chip;
use no_memory::Memory;

/// Works a unit that can be claimed, and posts its work. A refusal leaves the book as it was.
pub fn work_at<C: Chip>(
    chip: &C,
    parts: &mut Parts<C::Abs>,
    unit: &Unit,
    place: Place,
) -> Result<(), Memory>
    requires shows { Shows (state_of parts.old) parts.old }
    requires returned { parts.old.turns.returned ≡ [] }
    requires first { IsFirst (state_of parts.old) unit.now }
    requires placed { placed parts.old.nodes.rows unit.now ≡ Some place }
    ensures turned { OnOk result (Shows (turned (C.analysis (C.base chip.now)) (state_of parts.old) unit.now) parts.new) }
    ensures refused { OnErr result (Shows (state_of parts.old) parts.new) }
{
    let alloc = parts.nodes.allocator();
    let (at, exit, versions) = inputs_of(&parts.nodes, unit, place);
    let work = chip.work(alloc, unit, at, exit)?;
    parts.take_out(0, unit, place)?;
    match prepare_work(
        chip,
        parts,
        unit,
        place,
        versions,
        &work,
        Ahead::none(alloc),
    ) {
        Ok(raised) => {
            let mut spent = Spent::new(alloc);
            parts.post(raised, 0, unit, work, versions, &mut spent);
            Ok(())
        }
        Err(memory) => {
            parts.give_back(0, unit);
            Err(memory)
        }
    }
}
