//! What the programs of rows share: a row's code, images, texts and words, and which lines of the standard input hold.
#![tactic(auto)]

mod code_row;
mod placing;
mod telling;
mod texts;

pub use code_row::CodeRow;
pub use placing::image_of;
pub use telling::tell;
pub use texts::{add_line, text_of, words_of};
