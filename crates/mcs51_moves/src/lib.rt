//! What instructions that write a byte of memory of the MCS-51 make of what is known of a state.
//!
//! - [`increment`] and [`decrement`] of a byte; [`mask_direct`]: ORL, ANL or XRL of a direct byte.
//! - [`move_immediate`], [`move_to_direct`], [`move_from_direct`] and [`store`]: MOV to a byte.
//! - [`exchange`] and [`exchange_digit`]: XCH and XCHD.
//! - [`show_move_to_direct`] and [`show_move_from_direct`]: the accesses of MOV of a direct byte to show. Those of the other
//!   instructions are a read, a write or both of their operand (`mcs51_state`).
//!
//! Each is exact by a formula of `specs/Moves.antt`. The laws are functions that do nothing: [`moves_do`] says that the
//! instruction of the chip does what is said of it, and [`moves_keep_form`] that this is in form.
#![tactic(auto)]

mod laws;
mod moves;
mod showing;

pub use laws::{moves_do, moves_keep_form};
pub use moves::{
    decrement, exchange, exchange_digit, increment, mask_direct, move_from_direct, move_immediate,
    move_to_direct, store,
};
pub use showing::{show_move_from_direct, show_move_to_direct};
