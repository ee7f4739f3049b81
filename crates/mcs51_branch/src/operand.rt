//! The operand of CJNE.

use mcs51_state::Compared;
use value_set::Vs8;

/// The byte that CJNE compares with a constant.
#[derive(Clone, Copy, Debug, PartialEq, Eq)]
pub enum Operand {
    /// At one place.
    One(Compared),
    /// At one of several, with these numbers.
    Several(Vs8),
}
