//! What a function is made of.

use crate::entries::Entries;
use crate::functions::{Call, Function, Total};
use crate::program::Program;
use crate::search::Search;
use crate::site::{Link, Site};
use crate::ways::{Flow, Way, behind, flow_of};
use no_memory::Memory;
use std::alloc::Global;

/// Whether a way from a site is a call. Where the report doesn't tell how a call goes on, it may be one.
pub fn is_call(site: &Site<'_>, way: Way) -> bool {
    match way {
        Way::Call => true,
        Way::Plain => match site.instr {
            Some(instr) => matches!(flow_of(instr.text), Flow::Call(_)),
            None => false,
        },
        _ => false,
    }
}

/// Whether control comes back behind a call.
fn comes_back(program: &Program<'_>, pc: u16) -> bool {
    match program.sites.get(&pc) {
        None => false,
        Some(site) => site.comes_back(),
    }
}

/// The function that begins there.
pub fn function_of(
    alloc: Global,
    program: &Program<'_>,
    entries: &Entries,
    entry: u16,
) -> Result<Function, Memory> {
    let mut function = Function {
        entry,
        kind: entries.kind_of(entry),
        body: Vec::new(alloc),
        calls: Vec::new(alloc),
        own: None,
        total: Total::Unknown,
    };
    let mut search = Search::new(alloc);
    search.reach(entry)?;
    for _ in 0..u64::MAX {
        let Some(pc) = search.next() else {
            break;
        };
        if let Some(site) = program.sites.get(&pc) {
            function.body.push(pc)?;
            follow(program, entries, site, &mut function, &mut search)?;
        }
    }
    Ok(function)
}

/// Goes on from a site of a function: to further sites of it, or into other functions.
fn follow(
    program: &Program<'_>,
    entries: &Entries,
    site: &Site<'_>,
    function: &mut Function,
    search: &mut Search,
) -> Result<(), Memory> {
    let mut calls = false;
    for link in site.goes.iter() {
        let is_call = is_call(site, link.way);
        calls = calls || is_call;
        follow_link(entries, site.pc, *link, is_call, function, search)?;
    }
    match site.instr {
        Some(instr) if calls && comes_back(program, behind(&instr)) => search.reach(behind(&instr)),
        _ => Ok(()),
    }
}

/// Goes on along a way.
fn follow_link(
    entries: &Entries,
    pc: u16,
    link: Link,
    is_call: bool,
    function: &mut Function,
    search: &mut Search,
) -> Result<(), Memory> {
    let goes_on = link.way == Way::Next || link.way == Way::Jump;
    let enters = goes_on && link.at != function.entry && entries.all.contains(&link.at);
    if is_call || enters {
        function.calls.push(Call {
            at: pc,
            to: link.at,
            is_jump: !is_call,
        })?;
    } else if goes_on {
        search.reach(link.at)?;
    }
    Ok(())
}
