//! A search along ways and calls.

use no_memory::Memory;
use std::alloc::Global;
use std::collections::BTreeSet;

/// Addresses that a search has come to, and those of them from which it has yet to go on.
#[derive(Drop)]
pub struct Search {
    seen: BTreeSet<u16>,
    todo: Vec<u16>,
}

impl Search {
    /// A search that has come nowhere yet.
    pub fn new(alloc: Global) -> Search {
        Search {
            seen: BTreeSet::new(alloc),
            todo: Vec::new(alloc),
        }
    }

    /// Comes to an address.
    pub fn reach(&mut self, at: u16) -> Result<(), Memory> {
        if self.seen.insert(at)? {
            self.todo.push(at)?;
        }
        Ok(())
    }

    /// An address from which the search goes on, if one is left.
    pub fn next(&mut self) -> Option<u16> {
        self.todo.pop()
    }

    /// All that it has come to.
    pub fn into_seen(self) -> BTreeSet<u16> {
        self.seen
    }
}
