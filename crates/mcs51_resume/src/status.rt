//! PSW as it goes on.

ghost use Rattle.std.specs.Prelude.{◌≡◌};
ghost use Rattle.mcs51_resume.specs.Resume as the_resumed;

use irq_frames::{masked_bits, masked_entry};
use mcs51_state::Status;

/// PSW as it goes on, bit by bit.
pub(crate) fn resume_status(held: &Status, exit: &Status) -> Status
    ensures { result ≡ the_resumed.status_resumed held.now exit.now }
{
    match &exit.entry {
        None => *exit,
        Some(entry) => Status {
            bits: masked_bits(entry.and / 4, entry.or / 4, &held.bits),
            entry: masked_entry(&held.entry, entry),
        },
    }
}
