//! What is known of the accumulator and of CY beside their values.

ghost use Rattle.std.specs.Prelude.{◌≡◌};
ghost use Rattle.mcs51_state.specs.Facts as the_facts;

/// The accumulator is a multiple of a byte of RAM plus a number, modulo 256.
#[derive(Clone, Copy, Debug, PartialEq, Eq)]
pub struct LinearFact {
    /// The address of the byte.
    pub place: u8,
    /// What it is multiplied by.
    pub factor: u8,
    /// What is added to the product.
    pub added: u8,
}

/// A byte that CJNE compares with a constant.
#[derive(Clone, Copy, Debug, PartialEq, Eq)]
pub enum Compared {
    Accumulator,
    /// A byte of RAM, by its address.
    Ram(u8),
}

/// CY is 1 exactly where a byte is less than a bound.
#[derive(Clone, Copy, Debug, PartialEq, Eq)]
pub struct CarryFact {
    pub compared: Compared,
    pub bound: u8,
}

/// Whether both are the same byte.
fn is_same_compared(a: Compared, b: Compared) -> bool
    ensures { result ≡ the_facts.is_same_compared a b }
{
    match (a, b) {
        (Compared::Accumulator, Compared::Accumulator) => true,
        (Compared::Ram(at), Compared::Ram(other)) => at == other,
        _ => false,
    }
}

/// Whether both say the same of the same byte.
fn is_same_carry(a: &CarryFact, b: &CarryFact) -> bool
    ensures { result ≡ the_facts.is_same_carry a.now b.now }
{
    is_same_compared(a.compared, b.compared) && a.bound == b.bound
}

/// A fact of the accumulator that both have.
pub(crate) fn common_linear(a: &Option<LinearFact>, b: &Option<LinearFact>) -> Option<LinearFact>
    ensures { result ≡ the_facts.common_fact the_facts.is_same_linear a.now b.now }
{
    match (a, b) {
        (Some(one), Some(other)) if one == other => *a,
        _ => None,
    }
}

/// A fact of CY that both have.
pub(crate) fn common_carry(a: &Option<CarryFact>, b: &Option<CarryFact>) -> Option<CarryFact>
    ensures { result ≡ the_facts.common_fact the_facts.is_same_carry a.now b.now }
{
    match (a, b) {
        (Some(one), Some(other)) if is_same_carry(one, other) => *a,
        _ => None,
    }
}

/// Whether the second has no fact of the accumulator that the first one lacks.
pub fn is_linear_within(new: &Option<LinearFact>, held: &Option<LinearFact>) -> bool
    ensures { result ≡ the_facts.is_fact_within the_facts.is_same_linear new.now held.now }
{
    held.is_none() || new == held
}

/// Whether the second has no fact of CY that the first one lacks.
pub fn is_carry_within(new: &Option<CarryFact>, held: &Option<CarryFact>) -> bool
    ensures { result ≡ the_facts.is_fact_within the_facts.is_same_carry new.now held.now }
{
    match (new, held) {
        (_, None) => true,
        (Some(one), Some(other)) => is_same_carry(one, other),
        (None, Some(_)) => false,
    }
}
