//! What an analysis speaks of: places of a program under their contexts, units of work, and what a unit shows.
#![tactic(auto)]

mod calls;
mod laws;
mod node;
mod sequence;
mod shown;

pub use calls::{pop_call, push_call};
pub use chip_numbers::Space;
pub use laws::{equal_items_are_one, equal_nodes_are_one};
pub use node::{Calls, Frame, Node, Unit};
pub use sequence::Sequence;
pub use shown::{InstrBytes, Item, Set};
pub use value_set::Few;
