//! What the sets of the formulas hold, for every set of numbers of a width. Proofs over formulas call this.

ghost use Rattle.value_bits.specs.Laws.{BitLaws};

use value_set::set_laws;

/// All laws of bits, and of bitwise and decimal operations.
pub fn bit_laws()
    ensures { BitLaws }
{
    set_laws();
}
