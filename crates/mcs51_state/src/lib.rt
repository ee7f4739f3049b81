//! What an analysis of the MCS-51 knows of a state, what may be read there, and what writes leave of it.
//!
//! **States.** A [`State`] has a set of values for SP and for each other register, the bits of PSW as far as they are known,
//! the [`Levels`] that may be in service, a [`LinearFact`] of the accumulator, a [`CarryFact`] of CY, cells of RAM over any
//! representation of them, and the [`Ranges`](irq_frames::Ranges) of RAM that an interrupt's handler may have touched. A
//! value may remember how it came from the state that the interrupt suspended. Contracts see one plain value, `Known`
//! (`specs/Known.antt`), whatever represents the cells.
//!
//! `specs/Holding.antt` says when this stands for a state of the chip, `Covers`, and of all but its program counter,
//! `HoldsOfParts`. `specs/Places.antt` says what a value may remember, and `specs/Forms.antt` is the form of states and of
//! their nodes. `specs/Under.antt` is the premise of laws on instructions, `IsUnder`.
//!
//! **Operands.** [`Addresses`] are where an operand may stand (`specs/Standing.antt`).
//!
//! - [`addresses_of`], [`working_addresses`], [`direct_addresses`] and [`bit_addresses`]: where an operand may stand;
//!   [`register_addresses`] and [`pointed_addresses`]: the sets in RAM behind them.
//! - [`jump_targets`]: where JMP @A+DPTR may go, and MOVC A,@A+DPTR may read.
//! - [`read_byte`]: what a byte there may be read as, and how it came from what the place held when an interrupt came;
//!   [`ram_values`]: the numbers alone, of RAM; [`read_bit`] and [`carry`]: one bit of it, and CY.
//! - [`access`], [`show_pointer`] and [`show_address`]: the accesses to show; [`show_read`], [`show_write`] and [`show_update`]
//!   those to an operand, [`show_update_at`] those to a byte at some addresses.
//!
//! `specs/Doing.antt` says what it means that an instruction does what an analysis says of it: one that goes on behind itself
//! (`DoesSo`), a jump that is taken or isn't (`GoesSo`), and one that goes on at one of some addresses (`LandsSo`).
//!
//! **Writes.** A write drops the facts that name what it writes, and in an interrupt's frame it touches the bytes of RAM that
//! it may write.
//!
//! - [`write_byte`] writes a byte where an operand may stand: into RAM at one of some addresses, or into a register.
//!   [`set_accumulator`] and [`set_data_pointer`] write registers that instructions imply.
//! - [`set_carry`] and [`set_flags`] set CY, and CY, AC and OV; [`set_status`] writes PSW bit by bit.
//! - [`push_byte`], [`push_pair`] and [`push_address`] push, [`pop_byte`] takes the top byte away, and [`stack_top`] is
//!   where that stands.
//!
//! Each call is exact by a formula of `specs`, on `Known`. The laws are functions that do nothing. Of states:
//!
//! - [`state_laws`] (`specs/Laws.antt`): being within another is an order. Two states are within their join, within the
//!   first one widened by the second, and within the greatest. The first state and the greatest have the form, and joins
//!   and widenings keep it. What stands under a state stands under all that this is within, each state behind a reset
//!   under the first one, and each state of the chip under the greatest.
//!
//! Of operands (`specs/OperandLaws.antt`), all of which [`operand_laws`] gives:
//!
//! - [`operands_stand`]: an operand of the chip stands at one of the addresses.
//! - [`jump_targets_hold`]: the sum of A and DPTR is one of them.
//! - [`reads_hold`]: a byte that the chip may read, and each bit of it, is one of those.
//! - [`accesses_are_shown`]: each access that the chip makes to an operand is shown; [`accesses_add_up`]: accesses that are
//!   shown one by one are shown together.
//! - [`formats_do`]: a format of the chip does what is said of it, where each number that the chip may read leads there.
//!
//! Of writes (`specs/StoreLaws.antt`, with `specs/Following.antt`), all of which [`store_laws`] gives:
//!
//! - [`stores_keep_form`]: what is known keeps its form behind each formula.
//! - [`writes_follow`] and [`flags_follow`]: where a state of the chip stands under what is known, the state behind the
//!   chip's write stands under the formula.
//! - [`stack_follows`]: the same of pushes and pops, and the top byte stands where [`stack_top`] says.
#![tactic(auto)]

mod addresses;
mod bytes;
mod fact;
mod flags;
mod formats;
mod laws;
mod levels;
mod operands;
mod ram;
mod reading;
mod registers;
mod showing;
mod stack;
mod state;
mod status;
mod writing;

pub use addresses::Addresses;
pub use bytes::one_byte;
pub use fact::{CarryFact, Compared, LinearFact, is_carry_within, is_linear_within};
pub use flags::{set_carry, set_flags, set_status};
pub use formats::{accesses_add_up, formats_do};
pub use laws::{
    accesses_are_shown, flags_follow, jump_targets_hold, operand_laws, operands_stand, reads_hold,
    stack_follows, state_laws, store_laws, stores_keep_form, writes_follow,
};
pub use levels::Levels;
pub use operands::{
    addresses_of, bit_addresses, direct_addresses, jump_targets, pointed_addresses,
    register_addresses, working_addresses,
};
pub use ram::word_of;
pub use reading::{carry, ram_values, read_bit, read_byte};
pub use registers::{own_entry, set_accumulator};
pub use showing::{
    access, show_address, show_pointer, show_read, show_update, show_update_at, show_write,
};
pub use stack::{pop_byte, push_address, push_byte, push_pair, stack_top};
pub use state::State;
pub use status::Status;
pub use writing::{set_data_pointer, write_byte};
