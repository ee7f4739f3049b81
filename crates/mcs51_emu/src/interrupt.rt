//! Interrupts.

ghost use Rattle.std.specs.Prelude.{◌≡◌, ◌<◌, All, ◌≤◌};
ghost use Rattle.std.specs.List.{filter, range_with_len};
ghost use Rattle.mcs51_chip.specs.Interrupts as interrupts;
ghost use Rattle.mcs51_chip.specs.Step as steps;
ghost use Rattle.mcs51_emu.specs.Listing.{finished};
ghost use Rattle.mcs51_emu.specs.Form.{unheld};

use crate::bits::bit_at;
use crate::done::Done;
use crate::stack::call;
use arrayvec::ArrayVec;
use mcs51_chip::ChipState;

/// How many sources there are.
pub(crate) const SOURCES: usize = 6;

/// Whether EA and the source's own bit are set.
fn is_enabled(s: &ChipState, source: u8) -> bool
    requires { source < 6 }
    ensures { result ≡ interrupts.is_enabled s.now source }
{
    bit_at(s.ie, 7) == 1 && bit_at(s.ie, source) == 1
}

/// Whether a source has the high level.
fn is_high(s: &ChipState, source: u8) -> bool
    requires { source < 6 }
    ensures { result ≡ interrupts.is_high s.now source }
{
    bit_at(s.ip, source) == 1
}

/// Whether a level may interrupt what is in service.
fn is_allowed(s: &ChipState, is_high: bool) -> bool
    ensures { result ≡ interrupts.is_allowed s.now is_high }
{
    if is_high {
        !s.serves_high
    } else {
        !(s.serves_low || s.serves_high)
    }
}

/// Whether an interrupt may come.
fn may_come(s: &ChipState, source: u8) -> bool
    requires { source < 6 }
    ensures { result ≡ interrupts.may_come s.now source }
{
    is_enabled(s, source) && is_allowed(s, is_high(s, source))
}

/// The sources whose interrupt may come, ascending.
#[tactic(auto, unfolding(mcs51_chip::specs::Interrupts::coming))]
pub(crate) fn coming(s: &ChipState) -> ArrayVec<u8, SOURCES>
    ensures sources { result.items ≡ interrupts.coming s.now }
    ensures below { All (λ source. source < 6) result.items }
{
    let mut sources = ArrayVec::new();
    for source in 0..SOURCES as u8 {
        if may_come(s, source) {
            sources.push(source);
        }
    }
    sources
}

/// A level is in service.
fn serve(s: &mut ChipState, is_high: bool)
    ensures value { s.new ≡ interrupts.serving is_high s.old }
    ensures unheld { unheld s.new ≤ unheld s.old }
{
    if is_high {
        s.serves_high = true;
    } else {
        s.serves_low = true;
    }
}

/// The entry of an interrupt: a call of its handler, in service of its level.
#[tactic(auto, unfolding(mcs51_chip::specs::Step::entered))]
pub(crate) fn enter(s: &mut ChipState, source: u8) -> Done
    requires { source < 6 }
    ensures value { finished s.old s.new result ≡ steps.entered s.old source }
    ensures unheld { unheld s.new ≤ unheld s.old }
{
    let level = is_high(s, source);
    let accesses = call(s, 3 + 8 * source as u16);
    serve(s, level);
    Done {
        bytes: None,
        accesses,
    }
}
