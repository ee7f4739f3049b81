//! What the operations of the MCS-51 make of sets of values and of the known bits of PSW.
//!
//! - [`accumulated_made`] is ADD, ADDC, SUBB, ORL, ANL or XRL of the accumulator and an [`Operand`], [`twice_made`] an ADD of
//!   the accumulator to itself, and [`changed_made`] an operation on the accumulator alone. They give the accumulator and PSW.
//! - [`multiplied_made`] and [`divided_made`] are MUL and DIV, and give B too.
//! - [`masked_made`] is ORL, ANL or XRL of a byte, [`increased`] and [`decreased`] are INC and DEC, and [`pointer_increased`]
//!   is INC DPTR.
//! - [`masked_status`] is PSW behind ORL, ANL or XRL, bit by bit. PSW as it is read and behind a write of a byte stands in
//!   `mcs51_state`.
//! - [`carry_made`] and [`carry_bit_made`] are the operations on CY, [`byte_with_bit`] and [`status_with_bit`] those on a bit of
//!   a byte and of PSW by its address, and [`bit_of_byte`] and [`bit_of_status`] are what is known of such a bit.
//!
//! Each is exact by a formula of `specs`. Of at most 256 combinations of members all results are gathered, and a flag is known
//! where all of them agree. AND and OR with a constant mask a relation to the suspended state, and all else drops it.
//!
//! The laws are functions that do nothing. They say of the formulas that the form is kept, and that what is known behind an
//! operation holds of the state of the chip behind it, where what was known held of the state before:
//! [`accumulations_hold`], [`products_hold`], [`changes_hold`], [`statuses_hold`] and [`bit_changes_hold`]. [`instruction_laws`]
//! gives them with those of what is known, operands and writes.
#![tactic(auto)]

mod bits;
mod combining;
mod flags;
mod laws;
mod made;
mod results;
mod status;

pub use bits::{bit_of_byte, bit_of_status, byte_with_bit, status_with_bit};
pub use laws::{
    accumulations_hold, bit_changes_hold, changes_hold, instruction_laws, products_hold,
    result_laws, statuses_hold,
};
pub use made::{Made, MadePair, Operand};
pub use results::{
    accumulated_made, changed_made, decreased, divided_made, increased, masked_made,
    multiplied_made, pointer_increased, twice_made,
};
pub use status::{carry_bit_made, carry_made, masked_status};
