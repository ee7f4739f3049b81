//! How many bytes of stack functions take.

use crate::depth::Depths;
use crate::functions::{Call, Function, Functions, Kind, Total};
use crate::program::Program;
use std::collections::BTreeSet;

/// How many bytes a return address takes on the stack of either chip.
const RETURN_BYTES: u16 = 2;

impl Functions {
    /// Works out the totals, from the functions that call none upward.
    pub(crate) fn sum(
        &mut self,
        program: &Program<'_>,
        depths: Option<Depths>,
        recursive: &BTreeSet<u16>,
    ) {
        let rounds = self.by_entry.len();
        for _ in 0..rounds {
            if !self.sum_once(program, depths, recursive) {
                return;
            }
        }
    }

    /// Works out each total by those of the functions that it calls, and tells whether one changed.
    fn sum_once(
        &mut self,
        program: &Program<'_>,
        depths: Option<Depths>,
        recursive: &BTreeSet<u16>,
    ) -> bool {
        let mut changed = false;
        for entry in program.sites.keys() {
            if let Some(total) = self.total_at(program, depths, recursive, *entry)
                && let Some(function) = self.by_entry.get_mut(entry)
                && function.total != total
            {
                function.total = total;
                changed = true;
            }
        }
        changed
    }

    /// What the function that begins there takes by the totals that are known.
    fn total_at(
        &self,
        program: &Program<'_>,
        depths: Option<Depths>,
        recursive: &BTreeSet<u16>,
        entry: u16,
    ) -> Option<Total> {
        let function = self.by_entry.get(&entry)?;
        if recursive.contains(&entry) {
            return Some(Total::Recursive);
        }
        let (Some(own), Some(depths)) = (function.own, depths) else {
            return Some(Total::Unknown);
        };
        let mut total = Total::Known(own);
        for call in function.calls.iter() {
            let depth = depth_in(program, depths, function, call.at);
            total = deeper(total, self.total_below(call, depth));
        }
        Some(total)
    }

    /// What a function takes for one of its calls, which comes with the stack lowered so far.
    fn total_below(&self, call: &Call, depth: Option<u16>) -> Total {
        let Some(called) = self.by_entry.get(&call.to) else {
            return Total::Unknown;
        };
        match (called.total, depth) {
            (Total::Known(below), Some(depth)) => {
                let address = if call.is_jump { 0 } else { RETURN_BYTES };
                Total::Known(depth.saturating_add(address).saturating_add(below))
            }
            (Total::Recursive, _) => Total::Recursive,
            _ => Total::Unknown,
        }
    }
}

/// The greater of two totals. Of what is unknown or recursive the first is it.
fn deeper(one: Total, other: Total) -> Total {
    match (one, other) {
        (Total::Known(one), Total::Known(other)) => Total::Known(one.max(other)),
        (Total::Known(_), other) => other,
        (one, _) => one,
    }
}

/// How deep the stack is at an address, at least and at most, where it is known.
pub fn bounds_at(program: &Program<'_>, depths: Depths, pc: u16) -> Option<(u16, u16)> {
    let site = program.sites.get(&pc)?;
    if site.has_any_stack() {
        return None;
    }
    depths.of_sets(&site.stacks)
}

/// How far the stack is lowered at an instruction of a function, against its first one.
fn depth_in(program: &Program<'_>, depths: Depths, function: &Function, pc: u16) -> Option<u16> {
    let (least, most) = match function.kind {
        Kind::Reset => (0, 0),
        _ => bounds_at(program, depths, function.entry)?,
    };
    if pc == function.entry {
        return Some(0);
    }
    let (own_least, own_most) = bounds_at(program, depths, pc)?;
    Some(
        own_least
            .saturating_sub(least)
            .max(own_most.saturating_sub(most)),
    )
}

/// How far a function lowers the stack by itself. The first instructions behind a reset, which set SP, don't count.
pub fn own_of(program: &Program<'_>, depths: Option<Depths>, function: &Function) -> Option<u16> {
    let depths = depths?;
    let mut most = 0u16;
    for pc in function.body.iter() {
        match depth_in(program, depths, function, *pc) {
            Some(depth) => most = most.max(depth),
            None if function.kind == Kind::Reset => {}
            None => return None,
        }
    }
    Some(most)
}
