//! The frames of interrupts, for both chips: what a handler is handed, what it may have changed, and what goes on behind it.
//!
//! [`unrelated`] gives the cells of RAM as a handler is handed them: their sets without what they remember of an earlier
//! suspended state, over any representation of them, exactly as `specs/Unrelated.antt` says.
//!
//! [`Ranges`] are the addresses of RAM that a handler may have written. Behind the handler, [`resume_word`] makes of what the
//! exit knows what is known in the state that goes on: a value that came from a place of the suspended state, as relations
//! say, is again what that place held; [`masked_bits`] does so for the bits of a status. Behind it, by [`cells_behind`], RAM
//! that no handler touched is what it was, and the exit's cells go on as a chip says ([`Resumes`]); by [`resume_cells`] they go
//! on as words do.
//!
//! `specs/Touched.antt` says which ranges a state has in the frame of an interrupt and elsewhere, and how they are ordered.
//!
//! The laws are functions that do nothing: [`known_laws`] gives these, and all laws of sets, bits, words, bytes and cells, as one
//! record (`specs/KnownLaws.antt`, `specs/Laws.antt`).
#![tactic(auto)]

mod forgetting;
mod laws;
mod masking;
mod ranges;
mod resume;
mod rewriting;

pub use forgetting::unrelated;
pub use laws::{frame_laws, known_laws, range_laws};
pub use masking::{is_itself, is_unmasked, masked_bits, masked_entry};
pub use ranges::{Ranges, touched_behind};
pub use resume::{Places, Resumes, cells_behind, resume_by, resume_cells, resume_word};
