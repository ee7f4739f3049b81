//! What holds of the operations on sets.

ghost use Rattle.mcs51_results.specs.InstructionLaws.{InstructionLaws};
ghost use Rattle.mcs51_results.specs.Laws.{AccumulationsHold, BitChangesHold, ChangesHold, ProductsHold, ResultLaws, StatusesHold};

use irq_frames::known_laws;
use mcs51_chip::formats_lead;
use mcs51_state::{operand_laws, store_laws};

/// The operations on the accumulator and PSW: where what is known holds of a state, what is known behind the operation holds
/// of the state that the chip comes to. The form is kept.
pub fn accumulations_hold()
    ensures { AccumulationsHold }
{
    known_laws();
}

/// MUL and DIV, likewise.
pub fn products_hold()
    ensures { ProductsHold }
{
    known_laws();
}

/// The operations on a byte, and INC DPTR, likewise.
pub fn changes_hold()
    ensures { ChangesHold }
{
    known_laws();
}

/// PSW as a byte: what is known when it is read holds of each byte that it may read as, and what is known behind a write of a
/// byte, also of one that ORL, ANL or XRL made, holds of what the chip then holds. The form is kept.
pub fn statuses_hold()
    ensures { StatusesHold }
{
    known_laws();
}

/// CY, and bits of bytes and of PSW by their addresses, likewise.
pub fn bit_changes_hold()
    ensures { BitChangesHold }
{
    known_laws();
}

/// All laws of results, for proofs above.
pub fn result_laws()
    ensures { ResultLaws }
{
    accumulations_hold();
    products_hold();
    changes_hold();
    statuses_hold();
    bit_changes_hold();
}

/// All laws that a proof of what an instruction makes of a state takes: of what is known, of the chip's formats, of operands, of
/// writes and of results.
pub fn instruction_laws()
    ensures { InstructionLaws }
{
    known_laws();
    formats_lead();
    operand_laws();
    store_laws();
    result_laws();
}
