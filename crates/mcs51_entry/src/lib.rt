//! The entry of an interrupt of the MCS-51 over what is known of a state.
//!
//! - [`comings`]: the interrupts that may come, each a [`Coming`], by source, by the levels that are then in service, and by
//!   SP: one for each value of SP where these are a list, and one for all of them where they are a run. [`frame_of`] is the
//!   frame of its handler, and [`handler_of`] the handler's address.
//! - [`entered`]: what is known where the handler begins. Registers and the pushed bytes say how they came from the state that
//!   is suspended; cells keep their sets alone, and the pushed bytes are the touched ones.
//! - [`add_entry_items`]: what an entry shows.
//!
//! Each is exact by `specs/Coming.antt` and `specs/Entering.antt`. [`interrupt_laws`] says what holds of them: each interrupt
//! that comes is listed, the state that the handler begins with stands under what `entered_known` says, over the suspended
//! one, and the pushes are shown.
#![tactic(auto)]

mod coming;
mod entering;
mod laws;

pub use coming::{Coming, comings, frame_of, handler_of};
pub use entering::{add_entry_items, entered};
pub use laws::interrupt_laws;
