//! The emulator of the MCS-51: it runs single states, and answers each question of a step from a list of choices.
//!
//! `specs/Step.antt` of `mcs51_chip` says what a step of the chip is. A step of the machine first asks its questions, in the
//! order of that definition, and then writes, so that a step that isn't done leaves all as it was.
//!
//! Proved:
//!
//! - [`Machine::reset`] is a state behind a reset, with 0 in RAM.
//! - [`Machine::step`] answers [`Stepped::Met`] exactly where the chip has a next state by the next choices. The machine is
//!   then in that state, those choices are used, and the items are those of the step, in their order. It answers
//!   [`Stepped::Wild`] exactly where no instruction stands at PC, with the cause, and [`Stepped::NeedChoice`] exactly where
//!   the choices end before a question. Machine and choices are then as before.
//! - A machine keeps the form of states: bytes and words, and 0 in the bits that PSW, IE and IP don't hold.
//!
//! [`write_sfr`] writes a register of a state by hand, and [`has_form`] says that a state so written has its form.
//!
//! A step takes no memory, and touches no more of RAM than it reads and writes. `mcs51_run_rows` tests it, a line each.
#![tactic(auto)]

mod advance;
mod arithmetic;
mod bits;
mod done;
mod form;
mod interrupt;
mod items;
mod jumps;
mod machine;
mod memory;
mod moves;
mod perform;
mod registers;
mod stack;
mod stepped;

pub use choosing::Choices;
pub use form::has_form;
pub use machine::Machine;
pub use mcs51_decode::NoInstr;
pub use registers::write_sfr;
pub use stepped::Stepped;
