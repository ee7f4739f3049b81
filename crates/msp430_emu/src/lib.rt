//! The emulator of the MSP430: it runs single states, and answers each question of a step from a list of choices.
//!
//! `specs/Step.antt` of `msp430_chip` says what a step of the chip is. A step of the machine first computes registers,
//! stores and accesses (its questions are answered in the order of that definition), and writes at the end, so that a
//! step that isn't done leaves all as it was.
//!
//! Proved:
//!
//! - [`Machine::reset`] is a state behind a reset, with 0 in all that a reset leaves open.
//! - [`Machine::step`] answers [`Stepped::Met`] exactly where the chip has a next state by the next choices. The machine is
//!   then in that state, those choices are used, and the items are those of the step, in their order. It answers
//!   [`Stepped::Wild`] exactly where these choices lead out of the model, with the cause, and [`Stepped::NeedChoice`] exactly
//!   where they end before a question. Machine and choices are then as before.
//! - A machine keeps the form of states: sixteen words, PC and SP even, SR in nine bits, R3 empty, RAM in its size.
//!
//! A step takes no memory, and touches no more of RAM than it reads and writes.
#![tactic(auto)]

mod arithmetic;
mod commit;
mod decimal;
mod double;
mod effect;
mod here;
mod interrupt;
mod items;
mod jump;
mod machine;
mod memory;
mod operands;
mod push;
mod put;
mod results;
mod single;
mod state;
mod step;
mod stepped;

pub use choosing::Choices;
pub use msp430_chip::Wild;
pub use msp430_decode::NoInstr;
pub use state::Machine;
pub use stepped::Stepped;
