//! The entry of an interrupt of the MSP430 over what is known of a state.
//!
//! - [`comings`]: the interrupts that may come, each a [`Coming`]: one for each value of SP where these are a list, and one
//!   for all of them where they are a run. [`frame_of`] is the frame of its handler, and [`handler_of`] the handler's address.
//! - [`entered`]: what is known where the handler begins. Each register, SR and the pushed words say how they came from the
//!   state that is suspended; cells keep their sets alone, and the pushed bytes are the touched ones.
//! - [`counter_slot`] and [`status_slot`]: where PC and SR are pushed, and [`add_entry_items`]: what an entry shows.
//!
//! Each is exact by `specs/Entry.antt`. [`interrupt_laws`] says what holds of them: each interrupt that comes is listed, the
//! state that the handler begins with stands under what `entered_known` says, over the suspended one, what the entry does is
//! shown, and a push that hits the program is at one of the addresses of the two slots.
#![tactic(auto)]

mod coming;
mod entering;
mod handing;
mod laws;
mod showing;

pub use coming::{Coming, comings, frame_of, handler_of};
pub use entering::{counter_slot, entered, status_slot};
pub use laws::interrupt_laws;
pub use showing::add_entry_items;
