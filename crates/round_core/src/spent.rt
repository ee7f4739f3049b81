//! What posts have replaced.

use crate::met::MetNode;
use chip_analysis::Work;
use std::alloc::Global;

/// The copies of states that a ticket had.
#[derive(Drop)]
pub struct Rest<A> {
    pub at: A,
    pub exit: Option<A>,
    pub met: Vec<MetNode<A>>,
}

/// States and works that posts have replaced, and what is left of tickets. To free them takes as long as much of a post, so who
/// shares a book frees them once its turn is passed. No contract speaks of them.
#[derive(Drop)]
pub struct Spent<A> {
    states: Vec<A>,
    works: Vec<Work<A>>,
    rests: Vec<Rest<A>>,
}

/// How many are kept of each. Where no one takes them they are freed together.
const MOST: usize = 64;

/// For how many of each there is room where it is made ahead of a turn: as many as a post commonly replaces.
const ROOM: usize = 4;

/// Nothing, with room as far as memory lasts.
fn with_room<T: Drop>(alloc: Global) -> Vec<T> {
    match Vec::with_capacity(alloc, ROOM) {
        Ok(items) => items,
        Err(_) => Vec::new(alloc),
    }
}

impl<A: Drop> Spent<A> {
    pub(crate) fn new(alloc: Global) -> Self {
        Spent {
            states: Vec::new(alloc),
            works: Vec::new(alloc),
            rests: Vec::new(alloc),
        }
    }

    /// The same with room, so that posts take no memory for it while others wait.
    pub fn with_room(alloc: Global) -> Self {
        Spent {
            states: with_room(alloc),
            works: with_room(alloc),
            rests: with_room(alloc),
        }
    }

    /// Keeps a state, or frees it at once where there is no memory.
    pub(crate) fn keep_state(&mut self, state: Option<A>) {
        if MOST <= self.states.len() {
            self.states.clear();
        }
        if let Some(state) = state {
            let _kept = self.states.push(state);
        }
    }

    /// Keeps a work, or frees it at once where there is no memory.
    pub(crate) fn keep_work(&mut self, work: Option<Work<A>>) {
        if MOST <= self.works.len() {
            self.works.clear();
        }
        if let Some(work) = work {
            let _kept = self.works.push(work);
        }
    }

    /// Keeps what is left of a ticket, or frees it at once where there is no memory.
    pub(crate) fn keep_rest(&mut self, rest: Rest<A>) {
        if MOST <= self.rests.len() {
            self.rests.clear();
        }
        let _kept = self.rests.push(rest);
    }
}
