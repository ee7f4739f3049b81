//! What the flags say of a register.

ghost use Rattle.std.specs.Prelude.{◌≡◌};
ghost use Rattle.msp430_state.specs.Facts as the_facts;

use msp430_decode::Width;

/// The flags are those of a comparison: of a register plus one number, modulo the width, with another number. In bytes the
/// register is at most 00FFh.
#[derive(Clone, Copy, Debug, PartialEq, Eq)]
pub struct FlagFact {
    /// The number of the register, 4 to 15.
    pub register: u8,
    /// What is added to it.
    pub added: u16,
    /// What the sum is compared with.
    pub compared: u16,
    /// Words or bytes.
    pub width: Width,
}

/// Whether both are words or both are bytes.
fn is_same_width(a: Width, b: Width) -> bool
    ensures { result ≡ the_facts.is_same_width a b }
{
    matches!(
        (a, b),
        (Width::Word, Width::Word) | (Width::Byte, Width::Byte)
    )
}

/// Whether both say the same.
fn is_same_fact(a: &FlagFact, b: &FlagFact) -> bool
    ensures { result ≡ the_facts.is_same_fact a.now b.now }
{
    a.register == b.register
        && a.added == b.added
        && a.compared == b.compared
        && is_same_width(a.width, b.width)
}

/// A fact that both have.
pub(crate) fn common_fact(a: &Option<FlagFact>, b: &Option<FlagFact>) -> Option<FlagFact>
    ensures { result ≡ the_facts.common_fact a.now b.now }
{
    match (a, b) {
        (Some(one), Some(other)) if is_same_fact(one, other) => *a,
        _ => None,
    }
}

/// Whether the second has no fact that the first one lacks.
pub fn is_fact_within(new: &Option<FlagFact>, held: &Option<FlagFact>) -> bool
    ensures { result ≡ the_facts.is_fact_within new.now held.now }
{
    match (new, held) {
        (_, None) => true,
        (Some(one), Some(other)) => is_same_fact(one, other),
        (None, Some(_)) => false,
    }
}
