//! The MCS-51 as an analysis sees it: all of its instructions, over registers and memory, and its interrupts.
//!
//! `specs/Machine.antt` says what the chip does, in single states; `specs/Chip.antt` what the analysis makes of a program,
//! in sets.
//!
//! [`run`] is all instructions as one table, exact by `specs/Running.antt`: what an instruction at an address shows, and where
//! it goes on, [`Ran`]: at one of some addresses, or, as a conditional jump, on one of two ways ([`Way`]).
//!
//! Proved:
//!
//! - Each instruction of the chip does what is said of it (`specs/Doing.antt`), and that this is in form
//!   ([`instructions_do`]).
//! - Each call of [`Mcs51Chip`] gives exactly what `specs/Chip.antt` says.
//! - [`LawfulChip`](chip_law::LawfulChip): the start stands for each reset state, the work of a unit for each step of the
//!   chip from a state that its input stands for and that keeps what is promised, and the states are in order. An open is left only where a stated limit
//!   is broken.
//! - A stack grows by bytes: no work shows a word as a stack pointer ([`stacks_grow_by_bytes`]).
//! - [`LawfulText`](state_text::LawfulText): each state in form is read again from its text, no other text is read, and no
//!   field is outside exactly where a state is within another.
#![tactic(auto)]

mod changing;
mod chip;
mod following;
mod kept;
mod labels;
mod laws;
mod marks;
mod ran;
mod running;
mod setting;
mod showing;
mod stacks;
mod state_fields;
mod text;

pub use analysis_limits::Limits;
pub use chip::Mcs51Chip;
pub use kept::Kept;
pub use laws::instructions_do;
pub use ran::{Ran, Way};
pub use running::run;
pub use setting::Setting;
pub use stacks::stacks_grow_by_bytes;
pub use text::Mcs51Text;
