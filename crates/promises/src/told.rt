//! The sites of promises.

ghost use Rattle.std.specs.Prelude.{◌≡◌, ◌||◌, ◌++◌, ◌∷◌, [], ℕ, List, Ok, OnOk, IfOk, not, false, true};
ghost use Rattle.std.specs.List.{list_any};
ghost use Rattle.promises.specs.Text as texts;
ghost use Rattle.promises.specs.Told.{IsTold, has};
ghost use Rattle.promises.specs.declared.promise.Promise.{Promise as APromise};

use crate::promise::Promise;
use std::alloc::{AllocError, Global};
use std::collections::BTreeSet;

/// Adds a number to a set, and says whether it is new there.
fn add(set: &mut BTreeSet<u16>, number: u16) -> Result<bool, AllocError>
    ensures new { IfOk result (λ new. new ≡ not (has set.old.keys number)) }
    ensures added { OnOk result ((n : ℕ) → has set.new.keys n ≡ (has set.old.keys n || texts.is_same n number)) }
{
    Ok(set.insert(number)?)
}

/// Whether a number stands twice in a list.
fn has_twice(alloc: Global, numbers: &[u16]) -> Result<bool, AllocError>
    ensures { IfOk result (λ twice. twice ≡ texts.comes_again texts.is_same [] numbers.now) }
{
    let mut seen = BTreeSet::new(alloc);
    for number in numbers {
        if !add(&mut seen, *number)? {
            return Ok(true);
        }
    }
    Ok(false)
}

/// The sites of promises.
#[derive(Drop)]
pub struct Told {
    /// Those with windows of their own.
    pub stores: BTreeSet<u16>,
    /// Those with targets.
    pub ways: BTreeSet<u16>,
    /// Whether all other stores have windows.
    pub all: bool,
}

impl Told {
    /// The sites of no promises.
    pub fn new(alloc: Global) -> Self
        ensures { IsTold result [] }
    {
        Told {
            stores: BTreeSet::new(alloc),
            ways: BTreeSet::new(alloc),
            all: false,
        }
    }

    /// Adds the site of a promise, and says whether it is new.
    fn tell(&mut self, promise: &Promise) -> Result<bool, AllocError>
        ensures new { IfOk result (λ new. (promises : List APromise) → IsTold self.old promises
            → new ≡ not (list_any (texts.is_of_same promise.now) promises)) }
        ensures added { OnOk result ((promises : List APromise) → IsTold self.old promises
            → IsTold self.new (promises ++ promise.now ∷ [])) }
    {
        match promise {
            Promise::Write { pc, .. } => add(&mut self.stores, *pc),
            Promise::Goes { pc, .. } => add(&mut self.ways, *pc),
            Promise::All { .. } => {
                let new = !self.all;
                self.all = true;
                Ok(new)
            }
        }
    }

    /// Adds the sites of promises up to the first that isn't new, and says whether there is one.
    fn tell_all(&mut self, promises: &[Promise]) -> Result<bool, AllocError>
        ensures again { IfOk result (λ again. (earlier : List APromise) → IsTold self.old earlier
            → again ≡ texts.comes_again texts.is_of_same earlier promises.now) }
        ensures told { result ≡ Ok false → (earlier : List APromise) → IsTold self.old earlier
            → IsTold self.new (earlier ++ promises.now) }
    {
        for promise in promises {
            if !self.tell(promise)? {
                return Ok(true);
            }
        }
        Ok(false)
    }

    /// Adds the sites of promises, and says whether one of them comes twice, or has a target twice; then some may be added.
    pub fn is_twice(&mut self, alloc: Global, promises: &[Promise]) -> Result<bool, AllocError>
        ensures twice { IfOk result (λ twice. (earlier : List APromise) → IsTold self.old earlier
            → twice ≡ texts.is_twice earlier promises.now) }
        ensures told { result ≡ Ok false → (earlier : List APromise) → IsTold self.old earlier
            → IsTold self.new (earlier ++ promises.now) }
    {
        if self.tell_all(promises)? {
            return Ok(true);
        }
        any_target_twice(alloc, promises)
    }
}

/// Whether a promise has a target twice.
fn has_target_twice(alloc: Global, promise: &Promise) -> Result<bool, AllocError>
    ensures { IfOk result (λ twice. twice ≡ texts.has_target_twice promise.now) }
{
    match promise {
        Promise::Goes { targets, .. } => has_twice(alloc, targets.as_slice()),
        Promise::Write { .. } | Promise::All { .. } => Ok(false),
    }
}

/// Whether one of the promises has.
fn any_target_twice(alloc: Global, promises: &[Promise]) -> Result<bool, AllocError>
    ensures { IfOk result (λ twice. twice ≡ list_any texts.has_target_twice promises.now) }
{
    for promise in promises {
        if has_target_twice(alloc, promise)? {
            return Ok(true);
        }
    }
    Ok(false)
}
