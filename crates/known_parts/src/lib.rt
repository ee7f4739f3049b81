//! What both chips know of a state in the same way: bits of which some are known, perhaps with a relation.
//!
//! `specs/Bits.antt` says when a bit is known in both of two states, and when the first knows what the second knows, and
//! `specs/Options.antt` the same of a fact that a state may have. What is known of a state has parts, and its order goes
//! part by part (`plain_lemmas/specs/Orders.antt`): `specs/Parts.antt` has what bits, sets, relations and cells owe to it, and
//! `specs/Pointwise.antt` what lists do. `specs/CellForms.antt` says what stays true of each cell that is joined or widened.
#![tactic(auto)]

mod bits;

pub use bits::{are_bits_within, common_bit, common_bits, is_bit_within, is_relation_within};
