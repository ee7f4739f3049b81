//! What is known in front of an instruction of the MCS-51 whose step keeps promises, and which instructions promises may name.
//!
//! - `specs/Sites.antt` says which instructions these are (`spoken`): INC, DEC, MOV, XCH and XCHD that write `@R0` or `@R1`, and
//!   RET and `JMP @A+DPTR`. [`Sites`] tells them of an image.
//! - [`front`] is exact by `specs/Front.antt`: the register through which an instruction stores is cut to the addresses of
//!   its window, where its bank is known. `LO-SP` reaches up to the greatest number that SP may be, and `SP-HI` down to the least
//!   one. Where nothing is left, all stays.
//!
//! Proved of the formulas, in a function that does nothing:
//!
//! - [`front_laws`]: a state from which the instruction makes a step that keeps the promises stands under what is known in front
//!   of it, and that is in form and differs in cells of RAM alone. Without promises each step
//!   keeps them.
#![tactic(auto)]

mod fronts;
mod laws;
mod sites;

pub use fronts::front;
pub use laws::front_laws;
pub use sites::{Sites, pointer_of};
