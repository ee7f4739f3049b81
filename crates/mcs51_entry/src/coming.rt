//! Which interrupts may come.

ghost use Rattle.std.specs.Prelude.{◌≡◌, ◌<◌, ◌++◌, All, IfOk, OnOk};
ghost use Rattle.std.specs.List.{flat_map, range_with_len};
ghost use Rattle.value_set.specs.declared.form.Form.TheVariants as the_form;
ghost use Rattle.mcs51_chip.specs.Interrupts as interrupts;
ghost use Rattle.mcs51_entry.specs.Coming as entry;

use call_context::{Frame, Sequence};
use entry_value::Cells;
use mcs51_state::{Addresses, State, read_bit};
use no_memory::Memory;
use std::alloc::Global;
use value_bits::Tri;
use value_set::{Form, Vs8, members_are_below};

/// An interrupt that may come.
#[derive(Clone, Copy, Debug, PartialEq, Eq)]
pub struct Coming {
    /// Its source, below 6.
    pub source: u8,
    /// The levels in service in its handler: 1 for the low one, 2 for the high one, 3 for both.
    pub level: u8,
    /// SP when it comes, where that is one value.
    pub known_sp: Option<u8>,
    /// The values of SP when it comes.
    pub sp: Vs8,
}

/// Whether what is known of a bit allows a value.
fn may_be(known: Tri, flag: bool) -> bool
    ensures { result ≡ entry.may_be known flag }
{
    match known {
        Tri::Zero => !flag,
        Tri::One => flag,
        Tri::Either => true,
    }
}

/// Whether a bit of IE may be set.
fn may_enable<M: Cells>(state: &State<M>, place: u8) -> bool
    requires { place < 8 }
    ensures { result ≡ entry.may_enable state.now place }
{
    may_be(read_bit(state, &Addresses::InSfr(0xA8), place), true)
}

/// Whether a source may have the high level, or the low one.
fn may_have<M: Cells>(state: &State<M>, source: u8, high: bool) -> bool
    requires { source < 6 }
    ensures { result ≡ entry.may_have state.now source high }
{
    may_be(read_bit(state, &Addresses::InSfr(0xB8), source), high)
}

/// Whether a source may come so that these levels are in service in its handler.
fn may_level<M: Cells>(state: &State<M>, source: u8, level: u8) -> bool
    requires { source < 6 }
    ensures { result ≡ entry.may_level state.now source level }
{
    match level {
        1 => may_have(state, source, false) && state.levels.none,
        2 => may_have(state, source, true) && state.levels.none,
        _ => may_have(state, source, true) && state.levels.low,
    }
}

/// Adds an interrupt at each of some values of SP.
fn add_each(all: &mut Sequence<Coming>, source: u8, level: u8, sps: &[u16]) -> Result<(), Memory>
    requires { All (λ sp. sp < 256) sps.now }
    ensures { OnOk result (all.new ≡ all.old ++ entry.comings_at (the_form.Values sps.now) source level) }
{
    for sp in sps {
        all.push(Coming {
            source,
            level,
            known_sp: Some(*sp as u8),
            sp: Vs8::one(*sp as u8),
        })?;
    }
    Ok(())
}

/// Adds an interrupt, where SP is one of a set.
fn add(all: &mut Sequence<Coming>, source: u8, level: u8, sp: &Vs8) -> Result<(), Memory>
    ensures { OnOk result (all.new ≡ all.old ++ entry.comings_at sp.now source level) }
{
    members_are_below();
    match sp.form() {
        Form::Values(values) => add_each(all, source, level, values.as_slice()),
        Form::Run(_) => {
            all.push(Coming {
                source,
                level,
                known_sp: None,
                sp: *sp,
            })?;
            Ok(())
        }
    }
}

/// Adds a source at a level, if it may come so.
fn add_level<M: Cells>(
    all: &mut Sequence<Coming>,
    state: &State<M>,
    source: u8,
    level: u8,
) -> Result<(), Memory>
    requires { source < 6 }
    ensures { OnOk result (all.new ≡ all.old ++ entry.level_comings state.now source level) }
{
    if may_level(state, source, level) {
        return add(all, source, level, &state.sp);
    }
    Ok(())
}

/// Adds a source at each of its levels, if it may come.
fn add_source<M: Cells>(
    all: &mut Sequence<Coming>,
    state: &State<M>,
    source: u8,
) -> Result<(), Memory>
    requires { source < 6 }
    ensures { OnOk result (all.new ≡ all.old ++ entry.source_comings state.now source) }
{
    if !may_enable(state, source) {
        return Ok(());
    }
    add_level(all, state, source, 1)?;
    add_level(all, state, source, 2)?;
    add_level(all, state, source, 3)
}

/// Each source that may come, ascending.
fn each<M: Cells>(alloc: Global, state: &State<M>) -> Result<Sequence<Coming>, Memory>
    ensures { IfOk result (λ all. all ≡ flat_map (entry.source_comings state.now) (range_with_len 0 6)) }
{
    let mut all = Sequence::new(alloc);
    for source in 0..6 {
        add_source(&mut all, state, source)?;
    }
    Ok(all)
}

/// The interrupts that may come, ascending by source, by level and then by SP. It fails where memory runs out.
#[tactic(auto, unfolding(crate::specs::Coming::comings_of))]
pub fn comings<M: Cells>(alloc: Global, state: &State<M>) -> Result<Sequence<Coming>, Memory>
    ensures { IfOk result (λ all. all ≡ entry.comings_of state.now) }
{
    if may_enable(state, 7) {
        return each(alloc, state);
    }
    Ok(Sequence::new(alloc))
}

/// A stack pointer as frames have it.
fn word_of(sp: Option<u8>) -> Option<u16>
    ensures { result ≡ sp }
{
    match sp {
        Some(sp) => Some(sp as u16),
        None => None,
    }
}

/// The frame of the handler.
pub fn frame_of(coming: &Coming) -> Frame
    ensures { result ≡ entry.frame_of_coming coming.now }
{
    Frame::Irq {
        vector: coming.source,
        sp: word_of(coming.known_sp),
        level: coming.level,
    }
}

/// The address of a handler.
pub fn handler_of(source: u8) -> u16
    requires { source < 6 }
    ensures { result ≡ interrupts.vector_of source }
{
    3 + 8 * source as u16
}
