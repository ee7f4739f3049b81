//! Cells without their relations.

ghost use Rattle.std.specs.Prelude.{◌≡◌, None, IfOk};
ghost use Rattle.irq_frames.specs.Unrelated as cells_of;

use crate::rewriting::{Rewrites, rewritten};
use entry_value::{Cell, Cells, Word};
use no_memory::Memory;
use std::alloc::Global;
use value_set::Vs16;

/// Takes the relation from each cell that has one. A cell that says nothing then goes.
struct Forgetting {}

/// A set without a relation.
fn plain(set: Vs16) -> Word
    ensures { result ≡ record { set = set; entry = None } }
{
    Word { set, entry: None }
}

impl Rewrites for Forgetting {
    ghost use Rattle.irq_frames.specs.Unrelated as cells_of;

    ghost made = { λ forgetting. cells_of.unrelated };

    fn word(&self, cell: &Cell) -> Option<Word> {
        if cell.word.entry.is_none() {
            return None;
        }
        Some(plain(cell.word.set))
    }
}

/// The same cells without relations, or `Memory` where that lacks. Those that say nothing then go.
pub fn unrelated<M: Cells>(alloc: Global, cells: &M) -> Result<M, Memory>
    ensures { IfOk result (λ all. M.map all ≡ cells_of.without_relations (M.map cells.now)) }
{
    rewritten(alloc, cells, &Forgetting {})
}
