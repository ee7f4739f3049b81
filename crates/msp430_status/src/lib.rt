//! Instructions of the MSP430 whose destination is SR: what they make of what is known of a state.
//!
//! [`status`] is exact by `status_worked`, for instructions with two operands: behind MOV, BIC and BIS each bit of SR is known
//! where the known bits of both operands decide it, and what SR came from where it is told of the result and is SR; behind
//! one that sets flags nothing is known. [`single_status`] is exact by `single_status_worked`, for those whose one operand is
//! SR. [`statuses_hold`] and [`single_statuses_hold`] say what holds of the formulas: what the chip leaves stands under what
//! they say.
#![tactic(auto)]

mod bits;
mod laws;
mod worked;

pub use laws::{single_statuses_hold, statuses_hold};
pub use worked::{single_status, status};
