//! The answers of a step.

use arrayvec::ArrayVec;
use call_context::Item;
use mcs51_decode::NoInstr;

/// What came of a step.
#[derive(Drop)]
pub enum Stepped {
    /// A step was done: what it did, in order, each set with one value.
    Met(ArrayVec<Item, 12>),
    /// No step of the model: an instruction was to run where none stands.
    Wild(NoInstr),
    /// The choices end before a question of the step.
    NeedChoice,
}
