//! A memory image of a program: which byte, if any, stands at each of the 65,536 addresses, and the rules of a chip for it.
//! Beside it stands what may follow the text of one, which words ask and readers of such texts keep.
#![tactic(auto)]

mod address_map;
mod chip_name;
mod ram_range;
mod rule_set;
mod tail;

pub use address_map::Image;
pub use chip_name::ChipName;
pub use ram_range::RamRange;
pub use rule_set::Rules;
pub use tail::Tail;
