//! For rows of workers: a gate that some workers pass only where they work at once.
#![tactic(auto)]

mod gate;

pub use gate::HoldingGate;
