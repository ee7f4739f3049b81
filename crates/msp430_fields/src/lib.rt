//! The states of the MSP430 as a certificate writes them.
//!
//! `specs/States.antt` has the field of a state, one term of the kinds of `text_fields`: `SP=`, `SR=`, `L=`, `R4=` to `R15=`,
//! `F=`, `M=` and `T=` with a space between each two. `specs/Facts.antt` and `specs/Parts.antt` have what stands behind these
//! names, `specs/Places.antt` the names of places, and `specs/Nodes.antt` the test of the chip's nodes.
//!
//! [`push_state`] and [`read_state`] write and read a state over any representation of the cells of its RAM, and
//! [`first_outside`] tells the first field of a state that isn't within that of another (`specs/Outside.antt`). The law
//! [`states_have_texts`]: each state in form is read again, and no other text is.
#![tactic(auto)]

mod fact;
mod laws;
mod nodes;
mod outside;
mod parts;
mod places;
mod registers;
mod state;

pub use laws::states_have_texts;
pub use outside::first_outside;
pub use state::{push_state, read_state};
