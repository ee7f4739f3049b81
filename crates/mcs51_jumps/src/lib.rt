//! Instructions on CY and on bits of the MCS-51, and both ways of its conditional jumps, over what is known of a state.
//!
//! - [`change_carry`]: CPL, CLR and SETB of CY. [`join_carry`]: ORL and ANL of CY with a bit or its complement, and MOV of a bit
//!   to it.
//! - [`change_bit`]: MOV of CY to a bit, and CPL, CLR and SETB of one. CLR and SETB mask the relation of the byte that has it, and
//!   the others drop it.
//! - [`ways_on_condition`]: JC, JNC, JZ, JNZ and SJMP. [`ways_on_bit`]: JB, JNB and JBC, which clears the bit where it jumps.
//!   [`ways_by_comparison`]: CJNE. [`ways_by_counter`]: DJNZ, which lowers the byte and writes on each way the numbers that lead
//!   there. [`Ways`] are what is known where the jump isn't taken and where it is, if that can be.
//! - [`show_bit`], [`show_comparison`] and [`show_counter`]: the accesses of jumps that are shown.
//!
//! Each is exact by a formula of `specs/Bits.antt` or `specs/Jumps.antt`. The laws are functions that do nothing:
//!
//! - [`bits_do`]: an instruction on CY or on a bit does what is said. [`bits_keep_form`]: what is said is in form.
//! - [`jumps_do`]: the chip goes one of the ways, the state that it comes to stands under what is known there, and its accesses
//!   are shown.
//! - [`jumps_keep_form`]: each way is in form.
#![tactic(auto)]

mod bit_ways;
mod changing;
mod laws;
mod showing;
mod ways;

pub use bit_ways::ways_on_bit;
pub use changing::{change_bit, change_carry, join_carry};
pub use laws::{bits_do, bits_keep_form, jumps_do, jumps_keep_form};
pub use showing::{show_bit, show_comparison, show_counter};
pub use ways::{Ways, ways_by_comparison, ways_by_counter, ways_on_condition};
