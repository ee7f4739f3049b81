//! The lines of a report by address.

use crate::functions::Function;
use crate::known::Known;
use crate::site::{Link, Site};
use crate::ways::{Way, flow_of, told_way};
use no_memory::Memory;
use report_lines::{Cause, Edge, Line, Report};
use std::alloc::Global;
use std::collections::btree_map::Entry;
use std::collections::{BTreeMap, BTreeSet};

/// The sites by address.
#[derive(Drop)]
pub struct Program<'a> {
    alloc: Global,
    pub sites: BTreeMap<u16, Site<'a>>,
}

impl<'a> Program<'a> {
    /// The sites of a report.
    pub fn of(alloc: Global, report: &Report<'a>) -> Result<Program<'a>, Memory> {
        let mut program = Program {
            alloc,
            sites: BTreeMap::new(alloc),
        };
        for line in report.lines.iter() {
            program.add(line)?;
        }
        let known = Known::of(alloc, &program, report)?;
        for line in report.lines.iter() {
            if let Line::Edge(edge) = line {
                program.connect(&known, *edge)?;
            }
        }
        program.mark_stretches();
        Ok(program)
    }

    /// Finds out which sites stand in one straight stretch.
    fn mark_stretches(&mut self) {
        let mut head = 0;
        let mut front = None;
        for site in self.sites.values_mut() {
            if !site.follows(front) {
                head = site.pc;
            }
            site.head = head;
            front = site.way_on();
        }
    }

    /// Drops all sites but those of a function.
    pub fn keep(&mut self, function: &Function) -> Result<(), Memory> {
        let mut body = BTreeSet::new(self.alloc);
        for pc in function.body.iter() {
            body.insert(*pc)?;
        }
        self.sites.retain(|pc, _| body.contains(pc));
        self.mark_stretches();
        Ok(())
    }

    /// Adds a line to its site. Edges come later.
    fn add(&mut self, line: &Line<'a>) -> Result<(), Memory> {
        match place_of(line) {
            Some(pc) => self.site(pc)?.add(line),
            None => Ok(()),
        }
    }

    /// Adds an edge to its two sites.
    fn connect(&mut self, known: &Known, edge: Edge) -> Result<(), Memory> {
        let way = self.way_of(known, edge);
        let Edge { from, to } = edge;
        self.site(from)?.goes.push(Link { at: to, way })?;
        self.site(to)?.comes.push(Link { at: from, way })?;
        Ok(())
    }

    /// The site of an address, which is made where there is none.
    fn site(&mut self, pc: u16) -> Result<&mut Site<'a>, Memory> {
        match self.sites.entry(pc)? {
            Entry::Occupied(entry) => Ok(entry.into_mut()),
            Entry::Vacant(entry) => Ok(entry.insert(Site::new(self.alloc, pc))),
        }
    }

    /// How control goes along an edge.
    fn way_of(&self, known: &Known, edge: Edge) -> Way {
        let Some(site) = self.sites.get(&edge.from) else {
            return Way::Plain;
        };
        match site.instr {
            Some(instr) => match told_way(&instr, edge.to) {
                Some(way) => way,
                None => known.way_of(site, flow_of(instr.text), edge.to),
            },
            None if site.causes.contains(&Cause::Fetch) => Way::Interrupt,
            None => Way::Plain,
        }
    }
}

/// The address that a line says something of, if it is no edge.
fn place_of(line: &Line<'_>) -> Option<u16> {
    match line {
        Line::Edge(_) => None,
        Line::Instr(instr) => Some(instr.pc),
        Line::Access(access) => Some(access.pc),
        Line::Open(open) => Some(open.pc),
        Line::Stack(stack) => Some(stack.pc),
    }
}
