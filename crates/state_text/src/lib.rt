//! The states of a chip as texts: what the text of a state is, and which state of a node a text is.
//!
//! A chip with [`StateText`] writes and reads its states, and tells the first field of a state that isn't within that of
//! another. With [`LawfulText`] this is proved to be exact (`specs/Texts.antt`): each state in form is read again, and no
//! other text is read. Readers and checkers of certificates know of a chip's states no more than this.
#![tactic(auto)]

mod text;

pub use node_fields::Outside;
pub use text::{LawfulText, StateText};
