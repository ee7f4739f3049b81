//! The way to the place where the stack is deepest.

use crate::depth::Depths;
use crate::functions::Functions;
use crate::program::Program;
use crate::totals::bounds_at;
use crate::ways::Way;
use no_memory::Memory;
use std::alloc::Global;
use std::collections::BTreeSet;

/// How the stack comes to its deepest place.
#[derive(Clone, Copy)]
pub struct Step {
    /// The function.
    pub function: u16,
    /// Where it is: the deepest place, or what calls, or where the interrupt comes.
    pub at: u16,
    /// How control goes on from there into the step in front of this one.
    pub way: Way,
}

impl Functions {
    /// The steps from the place up to what begins first.
    pub fn path_to(
        &self,
        alloc: Global,
        program: &Program<'_>,
        depths: Depths,
        pc: u16,
    ) -> Result<Vec<Step>, Memory> {
        let mut steps = Vec::new(alloc);
        let mut seen = BTreeSet::new(alloc);
        let mut at = pc;
        let mut way = Way::Plain;
        for _ in 0..self.by_entry.len() {
            let Some(function) = self.with(at) else {
                break;
            };
            let entry = function.entry;
            if !seen.insert(entry)? {
                break;
            }
            steps.push(Step {
                function: entry,
                at,
                way,
            })?;
            let Some((from, through)) = deepest_way_to(program, depths, entry) else {
                break;
            };
            at = from;
            way = through;
        }
        Ok(steps)
    }
}

/// The place from which control comes into a function with the deepest stack, and how.
fn deepest_way_to(program: &Program<'_>, depths: Depths, entry: u16) -> Option<(u16, Way)> {
    let site = program.sites.get(&entry)?;
    let mut best = None;
    let mut most = 0u16;
    for link in site.comes.iter() {
        let enters = match link.way {
            Way::Call | Way::Interrupt => true,
            _ => false,
        };
        if enters
            && let Some((_, depth)) = bounds_at(program, depths, link.at)
            && (best.is_none() || most < depth)
        {
            best = Some((link.at, link.way));
            most = depth;
        }
    }
    best
}
