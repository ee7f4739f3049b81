//! Lists of any length.

ghost use Rattle.std.specs.Prelude.{◌≡◌, ◌++◌, ◌∷◌, [], OnOk, OnErr, length};

use std::alloc::{AllocError, Global};
use std::marker::Model;

/// A list, which contracts see as that list alone: it is a `Vec` without its room and its place.
#[derive(Drop)]
pub struct Sequence<T> {
    items: Vec<T>,
}

impl<T> Model for Sequence<T> {
    ghost use Rattle.std.specs.Prelude.{List};

    ghost Value = { List T };

    ghost view = { λ s. s.items.items };
}

impl<T> Sequence<T> {
    /// The empty list.
    pub fn new(alloc: Global) -> Self
        ensures { result ≡ [] }
    {
        Sequence {
            items: Vec::new(alloc),
        }
    }

    /// The list that a vector holds.
    pub fn from_vec(items: Vec<T>) -> Self
        ensures { result ≡ items.items }
    {
        Sequence { items }
    }

    /// A vector that holds the list.
    pub fn into_vec(self) -> Vec<T>
        ensures { result.items ≡ self }
    {
        let Sequence { items } = self;
        items
    }

    /// The items in order.
    pub fn as_slice(&self) -> &[T]
        ensures { result.now ≡ self.now }
    {
        self.items.as_slice()
    }

    /// Adds an item at the end. A refused one is dropped, and the list stays as it was.
    pub fn push(&mut self, item: T) -> Result<(), AllocError>
    where
        T: Drop,
        ensures added { OnOk result (self.new ≡ self.old ++ item ∷ []) }
        ensures refused { OnErr result (self.new ≡ self.old) }
    {
        self.items.push(item)?;
        Ok(())
    }
}
