//! Cuts of a byte at its place.

ghost use Rattle.std.specs.Prelude.{◌≡◌, ◌<◌, ℕ, OnErr, OnOk};
ghost use Rattle.value_set.specs.Form.{Has};
ghost use Rattle.mcs51_branch.specs.Cuts as cuts;
ghost use Rattle.mcs51_branch.specs.Ways.{IsWay};

use crate::window::Window;
use entry_value::{Cells, Word, bytes_stay_bytes};
use mcs51_state::{Compared, State};
use no_memory::Memory;
use value_bits::w16;
use value_set::{Vs8, Vs16};

/// The numbers that a byte may be.
pub(crate) fn set_at<M: Cells>(state: &State<M>, place: Compared) -> Vs8
    ensures { result ≡ cuts.set_at place state.now }
{
    match place {
        Compared::Accumulator => state.a.set,
        Compared::Ram(at) => w16::low(&state.cells.read(at as u16, 1).set),
    }
}

/// The numbers of a set in a window, if there are any.
#[tactic(auto, unfolding(crate::specs::Cuts::cut_to))]
pub(crate) fn cut_to(window: Window, set: &Vs8) -> Option<Vs8>
    ensures { result ≡ cuts.cut_to window set.now }
{
    set.cut(window.low, window.len)
}

/// A byte as a cell has it.
fn words_of(set: &Vs8) -> Vs16
    ensures value { result ≡ cuts.words_of set.now }
    ensures byte { (v : ℕ) → Has 65536 result v → v < 256 }
{
    bytes_stay_bytes();
    let _form = set.form();
    w16::pair(set, &Vs8::one(0))
}

/// Gives a byte other numbers. A refusal leaves all as it was.
#[tactic(auto, unfolding(crate::specs::Cuts::with_set))]
pub(crate) fn put<M: Cells>(state: &mut State<M>, place: Compared, set: Vs8) -> Result<(), Memory>
    ensures value { OnOk result (state.new ≡ cuts.with_set place state.old set) }
    ensures kept { OnErr result (state.new ≡ state.old) }
{
    match place {
        Compared::Accumulator => {
            state.a.set = set;
            Ok(())
        }
        Compared::Ram(at) => {
            let word = Word {
                set: words_of(&set),
                entry: state.cells.read(at as u16, 1).entry,
            };
            state.cells.write_one(at as u16, 1, word)
        }
    }
}

/// Cuts a byte to a window: the numbers that are left, where there are any, and otherwise answers `false`. Then, and where memory
/// lacks, all is as it was.
pub fn cut_place<M: Cells>(
    state: &mut State<M>,
    place: Compared,
    window: Window,
) -> Result<bool, Memory>
    ensures { IsWay (cuts.place_cut place window state.old) result state.old state.new }
{
    match cut_to(window, &set_at(state, place)) {
        Some(set) => {
            put(state, place, set)?;
            Ok(true)
        }
        None => Ok(false),
    }
}
