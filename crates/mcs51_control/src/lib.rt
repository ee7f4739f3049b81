//! Calls, returns and jumps of the MCS-51 over what is known of a state.
//!
//! - [`return_targets`]: where RET and RETI may go. [`return_from`] and [`return_from_interrupt`] take the address from the stack,
//!   and RETI ends a level. [`goes_back`]: whether RETI goes back to the state that the frame's interrupt suspended.
//! - [`show_call`] and [`show_return`]: the accesses to show.
//!
//! Each is exact by a formula of `specs/Returning.antt`. What a call leaves is a push of `mcs51_state`. The laws are functions
//! that do nothing: [`return_laws`], and [`transfers_do`], that each instruction does what is said of it.
#![tactic(auto)]

mod laws;
mod returning;

pub use laws::{return_laws, transfers_do};
pub use returning::{
    goes_back, return_from, return_from_interrupt, return_targets, show_call, show_return,
};
