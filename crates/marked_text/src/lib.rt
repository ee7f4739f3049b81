//! Texts with marks, as HTML and Graphviz read them: [`Markup`], which is written [`Piece`] by piece. No mark is read in a
//! piece that is text.
#![tactic(auto)]

mod markup;
mod piece;

pub use markup::Markup;
pub use piece::Piece;
