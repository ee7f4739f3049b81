//! What is known of PSW.

ghost use Rattle.std.specs.Prelude.{◌≡◌};
ghost use Rattle.mcs51_state.specs.Status as the_status;

use entry_value::{Entry, common};
use known_parts::{are_bits_within, common_bits, is_relation_within};
use value_bits::Tri;

/// What is known of PSW.
#[derive(Clone, Copy, Debug, PartialEq, Eq)]
pub struct Status {
    /// Its bits 2 to 7, the lowest one first: OV, RS0, RS1, F0, AC and CY.
    pub bits: [Tri; 6],
    /// How they came from those that it had when the interrupt came.
    pub entry: Option<Entry>,
}

impl Status {
    /// All its bits are one.
    pub(crate) fn of(bit: Tri) -> Status
        ensures { result ≡ the_status.status_of bit }
    {
        Status {
            bits: [bit; 6],
            entry: None,
        }
    }

    /// What is known in both.
    pub fn joined(&self, new: &Status) -> Status
        ensures { result ≡ the_status.status_joined self.now new.now }
    {
        Status {
            bits: common_bits(&self.bits, &new.bits),
            entry: common(&self.entry, &new.entry),
        }
    }

    /// Whether this knows what the other one knows.
    pub fn within(&self, held: &Status) -> bool
        ensures { result ≡ the_status.status_within self.now held.now }
    {
        are_bits_within(&self.bits, &held.bits) && is_relation_within(&self.entry, &held.entry)
    }
}
