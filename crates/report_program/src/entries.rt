//! Where functions begin.

use crate::bodies::is_call;
use crate::functions::Kind;
use crate::program::Program;
use crate::site::Site;
use crate::ways::Way;
use no_memory::Memory;
use report_lines::Report;
use std::alloc::Global;
use std::collections::BTreeSet;

/// Where the functions of a program begin.
#[derive(Drop)]
pub struct Entries {
    /// All addresses.
    pub all: BTreeSet<u16>,
    /// Those at which handlers of interrupts begin.
    handlers: BTreeSet<u16>,
    /// Where a reset leads.
    reset: Option<u16>,
}

impl Entries {
    /// The entries of a program that begins there, if it is known.
    pub fn of(alloc: Global, program: &Program<'_>, reset: Option<u16>) -> Result<Entries, Memory> {
        let mut entries = Entries {
            all: BTreeSet::new(alloc),
            handlers: BTreeSet::new(alloc),
            reset,
        };
        for site in program.sites.values() {
            entries.add(site)?;
        }
        if let Some(reset) = reset {
            entries.all.insert(reset)?;
        }
        Ok(entries)
    }

    /// Adds what a site calls, and the handlers of the interrupts that come there.
    fn add(&mut self, site: &Site<'_>) -> Result<(), Memory> {
        for link in site.goes.iter() {
            if link.way == Way::Interrupt {
                self.handlers.insert(link.at)?;
                self.all.insert(link.at)?;
            } else if is_call(site, link.way) {
                self.all.insert(link.at)?;
            }
        }
        Ok(())
    }

    /// How control comes to the function that begins there.
    pub fn kind_of(&self, entry: u16) -> Kind {
        if self.reset == Some(entry) {
            Kind::Reset
        } else if self.handlers.contains(&entry) {
            Kind::Handler
        } else {
            Kind::Called
        }
    }
}

/// The address at which a program begins, where the report tells it.
pub fn first_of(program: &Program<'_>, report: &Report<'_>) -> Option<u16> {
    if report.grows_up() {
        return Some(0);
    }
    for site in program.sites.values() {
        if site.comes.is_empty() && site.has_any_stack() {
            return Some(site.pc);
        }
    }
    None
}
