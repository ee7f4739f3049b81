//! What is known of a state of the MSP430 in front of an instruction whose step keeps promises (`promises`).
//!
//! - [`pointer_of`]: the register through which an instruction stores, and what is added to it (`specs/Sites.antt`).
//! - [`Sites`]: of which instructions of an image promises may speak.
//! - [`front`]: makes of what is known what is known where the instruction stores into its window: the register is cut to the
//!   values with which it points there (`specs/Front.antt`).
//!
//! `specs/Keeping.antt` says which steps keep promises. Proved of the formulas:
//!
//! - [`front_laws`]: a state from which a step of the instruction keeps the promises stands under what is known in front of it.
#![tactic(auto)]

mod fronts;
mod laws;
mod pointer;
mod sites;

pub use fronts::front;
pub use laws::front_laws;
pub use pointer::{Pointer, pointer_of};
pub use sites::Sites;
