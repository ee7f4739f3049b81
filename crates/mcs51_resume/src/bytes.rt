//! Bytes as they go on.

ghost use Rattle.std.specs.Prelude.{◌≡◌, ◌/◌, ◌%◌, ◌<◌};
ghost use Rattle.mcs51_resume.specs.Resume as the_resumed;

use entry_value::{Byte, Cells, Entry};
use irq_frames::is_unmasked;
use mcs51_state::{Addresses, State, one_byte, read_byte};
use value_set::Vs8;

/// What a place held where an interrupt came at `pc`, and `at` was known.
#[tactic(auto, unfolding(crate::specs::Resume::place_byte))]
pub(crate) fn place_byte<M: Cells>(framed: bool, at: &State<M>, pc: u16, place: u16) -> Byte
    ensures { result ≡ the_resumed.place_byte framed at.now pc place }
{
    if place < 256 {
        read_byte(framed, at, &Addresses::InRam(Vs8::one(place as u8)))
    } else if place < 512 {
        read_byte(framed, at, &Addresses::InSfr((place - 256) as u8))
    } else if place == 512 {
        one_byte((pc % 256) as u8)
    } else {
        one_byte((pc / 256) as u8)
    }
}

/// What a place held, behind the masks of a relation.
pub(crate) fn masked_by(entry: &Entry, held: &Byte) -> Byte
    ensures { result ≡ the_resumed.masked_by entry.now held.now }
{
    if is_unmasked(0xFF, entry) {
        return *held;
    }
    let and = (entry.and % 256) as u8;
    let or = (entry.or % 256) as u8;
    held.mask_and(and).mask_or(or)
}

/// A byte of the exit, as it goes on.
pub(crate) fn resume_byte<M: Cells>(framed: bool, at: &State<M>, pc: u16, exit: &Byte) -> Byte
    ensures { result ≡ the_resumed.resumed_byte (the_resumed.place_byte framed at.now pc) exit.now }
{
    match &exit.entry {
        None => *exit,
        Some(entry) => masked_by(entry, &place_byte(framed, at, pc, entry.place)),
    }
}
