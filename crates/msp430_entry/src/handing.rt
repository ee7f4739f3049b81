//! What a handler is handed of what is known: values that say how they came from the state that is suspended.

ghost use Rattle.std.specs.Prelude.{◌≡◌, None, Some, IfOk};
ghost use Rattle.msp430_entry.specs.Entry as entry;

use entry_value::{Cells, Entry, Word};
use irq_frames::{Ranges, unrelated};
use msp430_state::{State, Status};
use no_memory::Memory;
use std::alloc::Global;
use value_bits::Tri;
use value_set::Vs16;

/// The relation of a place to itself: all of what it holds.
fn itself(place: u16) -> Entry
    ensures { result ≡ entry.itself place }
{
    Entry {
        place,
        and: 0xFFFF,
        or: 0,
    }
}

/// What a place held, one of a set.
pub(crate) fn related(set: Vs16, place: u16) -> Word
    ensures { result ≡ record { set = set; entry = Some (entry.itself place) } }
{
    Word {
        set,
        entry: Some(itself(place)),
    }
}

/// A set without a relation.
fn plain(set: Vs16) -> Word
    ensures { result ≡ record { set = set; entry = None } }
{
    Word { set, entry: None }
}

/// R4 to R15, each related to itself.
fn all_related(words: &[Word; 12]) -> [Word; 12]
    ensures { result ≡ entry.all_related 4 words.now }
{
    let mut all = [plain(Vs16::any()); 12];
    for i in 0..12 {
        all[i] = related(words[i].set, i as u16 + 4);
    }
    all
}

/// What is known of a state, told of itself.
pub(crate) fn handed<M: Cells>(alloc: Global, state: &State<M>) -> Result<State<M>, Memory>
    ensures { IfOk result (λ handed. handed ≡ entry.handed state.now) }
{
    Ok(State {
        sp: state.sp,
        status: Status {
            bits: state.status.bits,
            entry: Some(itself(2)),
        },
        late: Tri::Zero,
        registers: all_related(&state.registers),
        fact: None,
        cells: unrelated(alloc, &state.cells)?,
        touched: Ranges::new(alloc),
    })
}
