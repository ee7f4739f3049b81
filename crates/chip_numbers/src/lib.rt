//! What the chips do in single numbers: the spaces of their addresses, what one step shows (`specs/Single.antt`), and what
//! their operations make of numbers (`specs/Numbers.antt`). Nothing here knows of sets.
#![tactic(auto)]

mod space;

pub use space::Space;
