//! What a conditional jump of the MSP430 makes of what is known of a state, and the facts that it goes by.
//!
//! - [`fact_behind`]: the fact that CMP and SUB with a constant leave, that the flags are those of comparing one of R4 to R15
//!   with it (`specs/Facts.antt`).
//! - [`taken_by`]: whether a jump is taken, where the known bits of SR say so (`specs/Conditions.antt`).
//! - [`cut`]: makes of what is known what is known where the jump is taken, or isn't. The flag that it tests becomes known,
//!   and the register of the fact is cut to the values with such flags (`specs/Cuts.antt`). It answers `false` where no
//!   state has that outcome, and takes no memory.
//!
//! Proved of the formulas:
//!
//! - [`facts_hold`]: the fact behind an instruction holds of the registers that the chip leaves.
//! - [`cuts_hold`]: a state that stands under what is known stands under what is known on the outcome that its SR says, and under
//!   what is known with any other set for one of R4 to R15 that has its number.
#![tactic(auto)]

mod conditions;
mod cutting;
mod facts;
mod laws;
mod window;
mod windows;

pub use conditions::taken_by;
pub use cutting::cut;
pub use facts::fact_behind;
pub use laws::{cuts_hold, facts_hold};
