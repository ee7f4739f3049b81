//! What the instructions of the MSP430 make of what is known of a state.
//!
//! The stages of an instruction, each exact by a formula of `specs`:
//!
//! - [`counter_set`]: what PC may be as an operand.
//! - [`source_reach`] and [`destination_reach`]: where operands may stand, as a [`Reach`]; [`located`]: where the accesses there are made.
//! - [`register_word`], [`read_one`], [`read_known`] and [`known_operand`]: what operands may hold.
//! - [`relation_of`]: what the result came from. [`status_relation`]: the same of a result in SR.
//! - [`grow`], [`put_register`] and [`set_flag_bits`]: writes to registers and to flags. PC and SP hold the [`even_parts`].
//! - [`store`]: stores to memory. [`show`]: the accesses that are made there.
//!
//! [`double`], [`single`] and [`push`] run them around the operations of `msp430_results`, as an instruction with two operands
//! does, one with one operand, and PUSH and CALL. [`Here`] is where it stands, with what is known of the state. What they make
//! of it is [`Worked`], exact by `double_worked`, `single_worked` and `push_worked`. They copy the state once.
//!
//! [`doubles_hold`], [`singles_hold`] and [`pushes_hold`] say what instructions come to by the formulas (`ComesTo` of
//! `specs/Doing.antt`), those with two operands, with one operand, and PUSH and CALL, but for those that write SR. What they
//! leave stands under what the formula says, at one of its next addresses, each access is shown, and a store that hits the
//! program is at one of the addresses of the formula's store. What the formulas say is in form (`IsWellMade`).
//!
//! [`words_in_memory`] is the law of words in memory and of SR as a word, for whoever pushes them and reads them back.
#![tactic(auto)]

mod counting;
mod formats;
mod here;
mod laws;
mod operands;
mod reach;
mod reading;
mod registers;
mod stores;
mod worked;
mod writing;

pub use counting::counter_set;
pub use formats::{relation_of, show};
pub use here::Here;
pub use laws::{doubles_hold, memory_laws, pushes_hold, singles_hold, words_in_memory};
pub use operands::{destination_reach, located, source_reach};
pub use reach::Reach;
pub use reading::{known_operand, read_known, read_one};
pub use registers::{even_parts, register_word, status_relation};
pub use stores::store;
pub use worked::{Worked, double, push, single};
pub use writing::{grow, put_register, set_flag_bits};
