//! What a chip leaves free is asked, one question after the other, from a list of choices.
//!
//! A definition of a step asks by `specs/Asking.antt`: an `Asking A` answers an A from a list of choices, with those that are
//! left. `specs/Outcome.antt` is what a step leads to.
//!
//! Of definitions that are put together from questions, two things are shown by walking over them, one lemma a form of
//! question:
//!
//! - `specs/Fronts.antt`: `AsksAtMost`. An answer needs a front of the choices, and is the same however they go on; so many
//!   choices are always enough; and choices of 16 bits give each answer that any choices give.
//! - `specs/Gives.antt`: `Gives`. Each answer has a property, whatever the choices.
//!
//! An emulator's calls take [`Unused`], the choices that are left, and say by `specs/Choosing.antt` that they answer as the
//! definition does. [`Choices`] keeps the list from one step to the next.
#![tactic(auto)]

mod choices;

pub use choices::{Choices, Unused};
