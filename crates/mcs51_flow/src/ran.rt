//! What an instruction makes of what is known of a state.

use call_context::{Item, Sequence};
use chip_flow::Kept;
use entry_value::Cells;
use mcs51_state::State;
use std::marker::Model;
use value_set::Vs16;

/// Where an instruction goes on, with what is known there.
#[derive(Drop)]
pub enum Way<A> {
    /// At one of some addresses.
    Lands {
        targets: Vs16,
        behind: A,
    },
    /// A conditional jump: behind itself, or at its target. A way that can't be taken has nothing known.
    Goes {
        target: u16,
        on: Option<A>,
        jumped: Option<A>,
    },
}

/// What an instruction shows, and where it goes on.
#[derive(Drop)]
pub struct Ran<M: Cells> {
    /// Its accesses to memory.
    pub items: Sequence<Item>,
    /// What is known stands behind pointers here, since it is moved often.
    pub way: Way<Kept<State<M>>>,
}

impl<M: Cells> Model for Ran<M> {
    ghost use Rattle.mcs51_flow.specs.Running.{Ran as KnownRan};

    ghost Value = { KnownRan };

    ghost view = { λ ran. record { items = ran.items; way = ran.way } };
}
