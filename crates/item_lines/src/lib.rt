//! The lines of a report that items have, one for each item of a step, and what they show of a run.
//!
//! A chip with [`InstrText`] gives the texts of its instructions. `specs/Line.antt` has the lines, and `specs/Shown.antt` says when
//! a text shows what a step did.
#![tactic(auto)]

mod instr_text;
mod line;

pub use instr_text::InstrText;
pub use line::{item_line, line_at, push_word_set, put_item, space_name};
