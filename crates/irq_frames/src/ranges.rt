//! Ranges of addresses.

ghost use Rattle.std.specs.Prelude.{◌≡◌, ◌≤◌, ◌<◌, ◌||◌, ◌++◌, ℕ, [], OnOk, OnErr, IfOk, length, take, drop, vec_capacity, vec_len};
ghost use Rattle.irq_frames.specs.Ranges as the_ranges;
ghost use Rattle.irq_frames.specs.Ranges.{AreRanges, EachReaches, has_address, lies_in};

use no_memory::Memory;
use std::alloc::Global;
use std::marker::Model;

/// Addresses, as ascending ranges that neither overlap nor touch, each from its first address to its last one.
#[derive(Drop)]
pub struct Ranges {
    ranges: Vec<(u16, u16)>,
}

impl Model for Ranges {
    ghost use Rattle.std.specs.Prelude.{List, ℕ};

    ghost Value = { List (ℕ × ℕ) };

    ghost use Rattle.irq_frames.specs.Ranges.{AreRanges};

    ghost view = { λ r. r.ranges.items };

    ghost invariant = { λ r. AreRanges 0 65535 r.ranges.items };
}

/// How many ranges end in front of an address.
fn ends_below(ranges: &[(u16, u16)], at: u16) -> usize
    requires { AreRanges 0 65535 ranges.now }
    ensures value { result ≡ the_ranges.ends_below ranges.now at }
    ensures bound { result ≤ length ranges.now }
{
    ranges.partition_point(|range| range.1 < at)
}

/// Whether a range lies in one of some ranges.
fn lies_in_one(range: (u16, u16), ranges: &[(u16, u16)]) -> bool
    requires { AreRanges 0 65535 ranges.now }
    ensures { result ≡ the_ranges.lies_in_one range ranges.now }
{
    let index = ends_below(ranges, range.1);
    index < ranges.len() && ranges[index].0 <= range.0
}

/// Puts a range at an index, in place of those from there on that it overlaps or touches. There is room for it.
#[tactic(auto, unfolding(crate::specs::Ranges::with_range))]
fn put(ranges: &mut Vec<(u16, u16)>, index: usize, lo: u16, hi: u16)
    requires inside { index ≤ vec_len ranges.old }
    requires room { vec_len ranges.old < vec_capacity ranges.old }
    requires reaches { EachReaches lo (drop index ranges.old.items) }
    ensures { ranges.new.items ≡ take index ranges.old.items ++ the_ranges.with_range lo hi (drop index ranges.old.items) }
{
    let mut low = lo;
    let mut high = hi;
    while index < ranges.len() && ranges[index].0 as u32 <= high as u32 + 1 {
        let range = ranges.remove(index);
        low = low.min(range.0);
        high = high.max(range.1);
    }
    match ranges.insert(index, (low, high)) {
        Ok(()) => {}
        Err(_) => unreachable!(),
    }
}

impl Ranges {
    /// No addresses.
    pub fn new(alloc: Global) -> Ranges
        ensures { result ≡ [] }
    {
        Ranges {
            ranges: Vec::new(alloc),
        }
    }

    /// The ranges.
    pub fn list(&self) -> &[(u16, u16)]
        ensures { result.now ≡ self.now }
    {
        self.ranges.as_slice()
    }

    /// Whether one of the ranges has an address.
    pub fn has(&self, at: u16) -> bool
        ensures { result ≡ has_address self.now at }
    {
        lies_in_one((at, at), &self.ranges)
    }

    /// Adds the addresses of a range. A refusal leaves the ranges as they were.
    pub fn add(&mut self, lo: u16, hi: u16) -> Result<(), Memory>
        requires { lo ≤ hi }
        ensures value { OnOk result (self.new ≡ the_ranges.with_range lo hi self.old) }
        ensures has { OnOk result ((at : ℕ) → has_address self.new at ≡ (has_address self.old at || lies_in (at, at) (lo, hi))) }
        ensures kept { OnErr result (self.new ≡ self.old) }
    {
        self.ranges.reserve(1)?;
        let index = ends_below(&self.ranges, lo.saturating_sub(1));
        put(&mut self.ranges, index, lo, hi);
        Ok(())
    }

    /// The same ranges once more.
    pub fn copy(&self, alloc: Global) -> Result<Ranges, Memory>
        ensures { IfOk result (λ copy. copy ≡ self.now) }
    {
        Ok(Ranges {
            ranges: self.ranges.as_slice().to_vec(alloc)?,
        })
    }

    /// The addresses of both.
    pub fn united(&self, alloc: Global, other: &Ranges) -> Result<Ranges, Memory>
        ensures { IfOk result (λ all. all ≡ the_ranges.united self.now other.now) }
    {
        let mut all = self.copy(alloc)?;
        for range in &other.ranges {
            all.add(range.0, range.1)?;
        }
        Ok(all)
    }

    /// Whether each address is one of the other ranges'.
    pub fn within(&self, other: &Ranges) -> bool
        ensures { result ≡ the_ranges.ranges_within self.now other.now }
    {
        for range in &self.ranges {
            if !lies_in_one(*range, &other.ranges) {
                return false;
            }
        }
        true
    }
}

/// What may be touched in the state that goes on: in an interrupt's frame what either handler touched, else nothing.
pub fn touched_behind(
    alloc: Global,
    framed: bool,
    at: &Ranges,
    exit: &Ranges,
) -> Result<Ranges, Memory>
    ensures { IfOk result (λ all. all ≡ the_ranges.touched_behind framed at.now exit.now) }
{
    if framed {
        at.united(alloc, exit)
    } else {
        Ok(Ranges::new(alloc))
    }
}
