//! RETI of the MSP430: what it makes of what is known of a state, and where it goes back to the state that an interrupt
//! suspended.
//!
//! [`return_from_interrupt`] is exact by `return_worked` (`specs/Return.antt`): SR and PC are read from the stack, and a relation
//! of the word that SR is read from stays one of SR. [`goes_back`] says where the stack pointer is what it was behind the
//! entry of the frame's interrupt and PC's slot holds what PC was then. Elsewhere RETI is a jump.
//!
//! [`return_laws`] says what holds of both: what the chip leaves stands under what is said, and where RETI goes back, it goes
//! on where the interrupt came.
#![tactic(auto)]

mod laws;
mod returning;

pub use laws::return_laws;
pub use returning::{goes_back, return_from_interrupt};
