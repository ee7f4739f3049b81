//! The lists of symbols that linkers and their tools write: what `nm` prints of an ELF file, and the `.noi` and the `.map` of
//! sdcc's linker. `specs/Lines.antt` says which symbol a line has, and `specs/Texts.antt` which symbols a text has, or which of
//! its lines is of no form (`symbols_of`). The first line tells which list it is.
//!
//! Proved:
//!
//! - [`read_symbols`] gives exactly the symbols of a text, in its order, or its first refused line.
//! - [`Names::base_of`] gives the greatest address of a symbol up to an address, and [`Names::has`] tells exactly which symbols
//!   of that address reach up to it (`specs/Finding.antt`).
#![tactic(auto)]

mod fault;
mod finding;
mod nm;
mod number;
mod reading;
mod sdcc;
mod symbol;

pub use fault::SymbolError;
pub use finding::Names;
pub use reading::{MOST_BYTES, read_symbols};
pub use symbol::{Form, Place, Symbol};
