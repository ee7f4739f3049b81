//! The facts, as they go on.

ghost use Rattle.std.specs.Prelude.{◌≡◌};
ghost use Rattle.irq_frames.specs.Resuming as resuming;
ghost use Rattle.mcs51_resume.specs.Resume as the_resumed;

use entry_value::Cells;
use irq_frames::is_itself;
use mcs51_state::{CarryFact, Compared, LinearFact, State};

/// Whether the accumulator is what it was.
fn is_accumulator_itself<M: Cells>(exit: &State<M>) -> bool
    ensures { result ≡ resuming.is_itself 255 the_resumed.accumulator_place exit.now.a.entry }
{
    is_itself(0xFF, 0x1E0, &exit.a.entry)
}

/// Whether a byte of RAM is what it was.
fn is_ram_itself<M: Cells>(exit: &State<M>, at: u8) -> bool
    ensures { result ≡ the_resumed.is_ram_itself exit.now at }
{
    !exit.touched.has(at as u16) || is_itself(0xFF, at as u16, &exit.cells.read(at as u16, 1).entry)
}

/// Whether the byte that CJNE compared is what it was.
fn is_compared_itself<M: Cells>(exit: &State<M>, compared: Compared) -> bool
    ensures { result ≡ the_resumed.is_compared_itself exit.now compared }
{
    match compared {
        Compared::Accumulator => is_accumulator_itself(exit),
        Compared::Ram(at) => is_ram_itself(exit, at),
    }
}

/// The fact of the accumulator, where all that it names is what it was.
pub(crate) fn resume_linear<M: Cells>(
    exit: &State<M>,
    fact: &Option<LinearFact>,
) -> Option<LinearFact>
    ensures { result ≡ the_resumed.linear_resumed exit.now fact.now }
{
    match fact {
        Some(fact) if is_accumulator_itself(exit) && is_ram_itself(exit, fact.place) => Some(*fact),
        _ => None,
    }
}

/// The fact of CY, where all of PSW and the compared byte are what they were.
pub(crate) fn resume_carry<M: Cells>(exit: &State<M>, fact: &Option<CarryFact>) -> Option<CarryFact>
    ensures { result ≡ the_resumed.carry_resumed exit.now fact.now }
{
    match fact {
        Some(fact)
            if is_itself(0xFF, 0x1D0, &exit.psw.entry) && is_compared_itself(exit, fact.compared) =>
            { Some(*fact) }
        _ => None,
    }
}
