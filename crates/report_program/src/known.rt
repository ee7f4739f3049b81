//! What a report says of the targets of returns.

use crate::program::Program;
use crate::site::Site;
use crate::ways::{Flow, Way, behind, flow_of, told_way};
use no_memory::Memory;
use report_lines::{Cause, Edge, Instr, Line, Report};
use std::alloc::Global;
use std::collections::BTreeSet;

/// What other lines say of the targets of returns.
#[derive(Drop)]
pub struct Known {
    /// The addresses behind calls.
    behind_calls: BTreeSet<u16>,
    /// Where handlers of interrupts begin.
    entries: BTreeSet<u16>,
    /// Where interrupts come.
    interrupted: BTreeSet<u16>,
}

impl Known {
    /// What all lines of a report say of them.
    pub fn of(alloc: Global, program: &Program<'_>, report: &Report<'_>) -> Result<Known, Memory> {
        let mut known = Known {
            behind_calls: BTreeSet::new(alloc),
            entries: BTreeSet::new(alloc),
            interrupted: BTreeSet::new(alloc),
        };
        for line in report.lines.iter() {
            match line {
                Line::Instr(instr) => known.note_call(instr)?,
                Line::Edge(edge) if is_interrupt(program, *edge) => {
                    known.entries.insert(edge.to)?;
                    known.interrupted.insert(edge.from)?;
                }
                _ => {}
            }
        }
        Ok(known)
    }

    /// Keeps the address behind a call.
    fn note_call(&mut self, instr: &Instr<'_>) -> Result<(), Memory> {
        if let Flow::Call(_) = flow_of(instr.text) {
            self.behind_calls.insert(behind(instr))?;
        }
        Ok(())
    }

    /// The way from a jump, a call or a return whose text doesn't tell where it goes. An interrupt may come there too, if
    /// its writes stand there.
    pub fn way_of(&self, site: &Site<'_>, flow: Flow, to: u16) -> Way {
        let writes = site.writes();
        match flow {
            Flow::Jump(_) if writes == 0 => Way::Jump,
            Flow::Call(_) if writes < 2 => Way::Call,
            Flow::Return if writes == 0 => Way::Return,
            Flow::Resume if writes == 0 => Way::Resume,
            Flow::Return => self.back(self.behind_calls.contains(&to), to, Way::Return),
            Flow::Resume => self.back(self.interrupted.contains(&to), to, Way::Resume),
            _ => Way::Plain,
        }
    }

    /// The way from a return where interrupts may come too, by what else the report says of the target.
    fn back(&self, is_back: bool, to: u16, way: Way) -> Way {
        match (is_back, self.entries.contains(&to)) {
            (true, false) => way,
            (false, true) => Way::Interrupt,
            _ => Way::Plain,
        }
    }
}

/// Whether the text of the instruction tells that an interrupt goes along the edge.
fn is_interrupt(program: &Program<'_>, edge: Edge) -> bool {
    let Some(site) = program.sites.get(&edge.from) else {
        return false;
    };
    match site.instr {
        Some(instr) => told_way(&instr, edge.to) == Some(Way::Interrupt),
        None => site.causes.contains(&Cause::Fetch),
    }
}
