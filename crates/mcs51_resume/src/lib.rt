//! Where a return from an interrupt of the MCS-51 resumes the state that was suspended: what is known there.
//!
//! [`resume`] is exact by `resumed_known` (`specs/Resume.antt`): a value that came from a place of the suspended state is what
//! that place is known to have held, and RAM that no handler touched is what it was. [`resumption_laws`] says that what the
//! handler left stands under it.
#![tactic(auto)]

mod bytes;
mod cells;
mod facts;
mod laws;
mod resumed;
mod status;

pub use laws::resumption_laws;
pub use resumed::resume;
