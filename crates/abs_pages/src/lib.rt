//! What is known of a RAM, as pages of 32 addresses that states share.
//!
//! [`CellPages`] is [`Cells`](entry_value::Cells) over the one list of the definitions, as `abs_memory` is: each page is such a
//! list behind a shared pointer, and a cell belongs to the page of its place. A copy shares all pages, and a page is copied
//! where it is written while it has other owners. Joins and widenings keep the held page where the other page's cells are
//! within its own. No clause sees what is shared.
//!
//! A cell of two bytes may reach into the next page. So a write at the first byte of a page looks at the page in front, and one
//! at its last byte at the next page. Where it meets a cell there, all pages are shared once more and those that change are
//! written in place of the old ones, so that a refusal leaves the cells as they were. A write at several addresses shares the
//! pages that it doesn't reach.
#![tactic(auto)]

mod finding;
mod joining;
mod page;
mod pages;
mod passing;
mod reading;
mod scattering;
mod writing;

pub use pages::CellPages;
