//! What is known of a state, as it is handed on and kept.

use abs_pages::CellPages;
use msp430_state::State;

/// What is known of a state, with the cells of its RAM as the analysis keeps them.
pub(crate) type Abs = State<CellPages>;

/// The same behind a shared pointer.
pub type Kept = chip_flow::Kept<Abs>;
