//! SR and the flag fact, as they go on.

ghost use Rattle.std.specs.Prelude.{◌≡◌};
ghost use Rattle.msp430_resume.specs.Resume as the_resumed;

use crate::places::register_word;
use entry_value::Cells;
use irq_frames::{is_itself, masked_bits, masked_entry};
use msp430_state::{FlagFact, State, Status};

/// SR as it goes on, bit by bit.
pub(crate) fn resume_status(held: &Status, exit: &Status) -> Status
    ensures { result ≡ the_resumed.status_resumed held.now exit.now }
{
    match &exit.entry {
        None => *exit,
        Some(entry) => Status {
            bits: masked_bits(entry.and, entry.or, &held.bits),
            entry: masked_entry(&held.entry, entry),
        },
    }
}

/// The fact, where its register and SR are what they were.
pub(crate) fn resume_fact<M: Cells>(exit: &State<M>, fact: &Option<FlagFact>) -> Option<FlagFact>
    ensures { result ≡ the_resumed.fact_resumed exit.now fact.now }
{
    match fact {
        None => None,
        Some(fact) => {
            let word = register_word(&exit.registers, fact.register as u16);
            if is_itself(0xFFFF, 2, &exit.status.entry)
                && is_itself(0xFFFF, fact.register as u16, &word.entry)
            {
                Some(*fact)
            } else {
                None
            }
        }
    }
}
