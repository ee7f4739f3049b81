//! What a report says of one address.

use crate::ways::{Way, behind};
use no_memory::Memory;
use report_lines::{Access, Cause, Instr, Line, Set};
use std::alloc::Global;

/// The other end of an edge, and how control goes along it.
#[derive(Clone, Copy, PartialEq, Eq)]
pub struct Link {
    pub at: u16,
    pub way: Way,
}

/// All that a report says of one address.
#[derive(Drop)]
pub struct Site<'a> {
    pub pc: u16,
    /// The first address of the straight stretch that it stands in.
    pub head: u16,
    pub instr: Option<Instr<'a>>,
    /// Where control goes from here.
    pub goes: Vec<Link>,
    /// Where control comes from.
    pub comes: Vec<Link>,
    pub accesses: Vec<Access<'a>>,
    pub causes: Vec<Cause<'a>>,
    pub stacks: Vec<Set<'a>>,
}

impl<'a> Site<'a> {
    /// An address of which nothing is said yet.
    pub fn new(alloc: Global, pc: u16) -> Site<'a> {
        Site {
            pc,
            head: pc,
            instr: None,
            goes: Vec::new(alloc),
            comes: Vec::new(alloc),
            accesses: Vec::new(alloc),
            causes: Vec::new(alloc),
            stacks: Vec::new(alloc),
        }
    }

    /// Adds a line of this address. Edges come later.
    pub fn add(&mut self, line: &Line<'a>) -> Result<(), Memory> {
        match line {
            Line::Edge(_) => {}
            Line::Instr(instr) => self.instr = Some(*instr),
            Line::Access(access) => self.accesses.push(*access)?,
            Line::Open(open) => self.causes.push(open.cause)?,
            Line::Stack(stack) => self.stacks.push(stack.at)?,
        }
        Ok(())
    }

    /// Whether some site of the analysis is open here.
    pub fn is_open(&self) -> bool {
        !self.causes.is_empty()
    }

    /// Whether the stack pointer can have any value here.
    pub fn has_any_stack(&self) -> bool {
        for set in self.stacks.iter() {
            if set.is_whole() {
                return true;
            }
        }
        false
    }

    /// How many writes stand here, up to two. An interrupt's entry writes twice, and where it can come in any number of
    /// places its two lines may be one.
    pub fn writes(&self) -> usize {
        let mut count = 0usize;
        for access in self.accesses.iter() {
            if access.kind.writes() {
                count = count.saturating_add(if access.at.is_whole() { 2 } else { 1 });
            }
        }
        count
    }

    /// Whether control may come back here from a call.
    pub fn comes_back(&self) -> bool {
        for link in self.comes.iter() {
            if link.way == Way::Return || link.way == Way::Plain {
                return true;
            }
        }
        false
    }

    /// This address and the one behind, where control goes on there alone, interrupts left aside.
    pub fn way_on(&self) -> Option<(u16, u16)> {
        let next = behind(&self.instr?);
        match only_link(&self.goes, Way::Interrupt) {
            Some(link) if link.way == Way::Next && link.at == next => Some((self.pc, next)),
            _ => None,
        }
    }

    /// Whether control comes here along such a way alone, returns from interrupts left aside. So it stands in one straight
    /// stretch with the site in front.
    pub fn follows(&self, front: Option<(u16, u16)>) -> bool {
        let Some((from, next)) = front else {
            return false;
        };
        match only_link(&self.comes, Way::Resume) {
            Some(link) => next == self.pc && link.way == Way::Next && link.at == from,
            None => false,
        }
    }
}

/// The link that isn't of a way, where there is just one.
fn only_link(links: &Vec<Link>, but: Way) -> Option<Link> {
    let mut only = None;
    for link in links.iter() {
        if link.way != but {
            if only.is_some() {
                return None;
            }
            only = Some(*link);
        }
    }
    only
}
