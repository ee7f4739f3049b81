//! Values that may remember a place of the state that an interrupt suspended, and what is known of a RAM.
//!
//! A [`Word`] or a [`Byte`] is a set of numbers and perhaps an [`Entry`]: the relation of each number to what a place held
//! when the interrupt came. `HoldsOfWord` in `specs/Words.antt` says when one holds of a number.
//!
//! [`Cells`] is what any representation of cells has to do, over the one list of them in `specs/Cells.antt`.
//! The laws are functions that do nothing, for proofs over the definitions alone: [`value_laws`] and [`cell_laws`] give them
//! all, each as one record (`specs/Laws.antt`). They say of all words, bytes and relations what these say behind an operation,
//! and how they are ordered. Of every list of cells they say that what is read holds of what stands there, that writes, joins
//! and widenings cover each RAM behind them and keep the cells' form, and that `within` is an order. [`bytes_stay_bytes`] gives
//! the part that writers of cells need.
#![tactic(auto)]

mod byte;
mod cells;
mod laws;
mod parts;
mod word;

pub use byte::Byte;
pub use cells::{Cell, Cells};
pub use laws::{bytes_stay_bytes, cell_laws, value_laws};
pub use parts::{is_nothing, unknown, word_of_byte, word_of_bytes};
pub use word::{Entry, Word, common};
