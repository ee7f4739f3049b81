//! Pages of certificates: what stands in one block of RAM, written once, and the texts of states that name pages by number in the
//! place of their cells.
//!
//! Proved (`specs/Pages.antt` has the words):
//!
//! - A text that names its pages in their turn is filled to the text (`specs/Named.antt`: `filled_again`).
//! - A text that is filled in turn names the pages of what it is filled to, so no text is named in two ways (`filled_only`).
//! - [`Pages`] finds a page by its number and by its cells, each in constant time.
#![tactic(auto)]

mod blocks;
mod fields;
mod filling;
mod pages;

pub use blocks::is_page;
pub use filling::{Filled, fill};
pub use pages::{Pages, name};
