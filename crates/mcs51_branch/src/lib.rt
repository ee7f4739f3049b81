//! What a conditional jump of the MCS-51 makes of what is known of a state.
//!
//! - [`cut_by_condition`]: JC, JNC, JZ, JNZ and SJMP, taken or not. CY that was looked at is known behind the jump, and cuts the
//!   byte that CJNE compared; A is cut to 0, or to what isn't 0.
//! - [`cut_by_comparison`]: CJNE with a constant, which writes CY and cuts its operand. [`compare_with`]: `CJNE A,dir`.
//! - [`cut_by_bit`]: JB, JNB and JBC. A list keeps the numbers with such a bit, a run and its cell stay as they are, and a held bit
//!   of PSW is known behind the jump.
//! - [`lowered`]: the numbers of the byte that DJNZ lowered, which it writes on each way.
//! - [`cut_place`]: A or a byte of RAM, cut to a [`Window`].
//!
//! `specs/Cuts.antt`, `specs/Jumps.antt` and `specs/Testing.antt` have the formulas. A cut changes sets alone, and no relation.
//!
//! Proved of the formulas, in functions that do nothing:
//!
//! - [`bits_hold`], [`jumps_hold`]: a state of the chip that stands under what is known in front of a jump stands under what is known on the
//!   way that the chip goes, which is never left out. What is known on each way is in form. It stands under what is known with
//!   any other set for A or a byte of RAM that has it, and with what a window leaves where it stands in that.
#![tactic(auto)]

mod carry;
mod jumps;
mod laws;
mod operand;
mod places;
mod testing;
mod window;

pub use jumps::{compare_with, cut_by_comparison, cut_by_condition, lowered};
pub use laws::{bits_hold, branch_laws, jumps_hold};
pub use operand::Operand;
pub use places::cut_place;
pub use testing::cut_by_bit;
pub use window::Window;
