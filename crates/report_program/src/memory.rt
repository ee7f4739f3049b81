//! The accesses of a report by what they access.

use crate::depth::Depths;
use crate::functions::{Functions, Kind};
use crate::lists::{Lists, add_once};
use no_memory::Memory;
use report_lines::{Access, Line, Report, Set, Space};
use std::alloc::Global;
use std::collections::btree_map::Entry;
use std::collections::{BTreeMap, BTreeSet};

/// Who accesses some addresses.
#[derive(Drop)]
pub struct Row<'a> {
    pub space: Space,
    pub at: Set<'a>,
    pub readers: Vec<u16>,
    pub writers: Vec<u16>,
    /// Where the program and the handlers begin from which control comes to these instructions.
    pub roots: BTreeSet<u16>,
    /// Whether all addresses are of the stack.
    pub is_stack: bool,
}

/// The rows by space and address.
#[derive(Drop)]
pub struct Accesses<'a> {
    pub rows: BTreeMap<u64, Row<'a>>,
}

/// The place of a row: by its space, its least address and its greatest one.
fn key_of(access: &Access<'_>) -> u64 {
    let space = match access.space {
        Space::Mem => 0u64,
        Space::Ram => 1,
        Space::Sfr => 2,
        Space::Xram => 3,
        Space::Code => 4,
    };
    let (least, greatest) = (u64::from(access.at.least), u64::from(access.at.greatest));
    space.wrapping_shl(48) | least.wrapping_shl(32) | greatest.wrapping_shl(16)
}

/// Whether all addresses of an access are of the stack.
fn is_stack(depths: Option<Depths>, access: &Access<'_>) -> bool {
    let Some(depths) = depths else {
        return false;
    };
    let (least, greatest) = (access.at.least, access.at.greatest);
    match access.space {
        Space::Mem => depths.extreme <= least && greatest < depths.top,
        Space::Ram => depths.top < least && greatest <= depths.extreme,
        _ => false,
    }
}

/// From where control comes to each instruction: the first addresses of the program and of handlers.
#[derive(Drop)]
pub struct Roots {
    by_pc: Lists,
}

impl Roots {
    /// The roots of all instructions.
    pub fn of(alloc: Global, functions: &Functions) -> Result<Roots, Memory> {
        let mut roots = Roots {
            by_pc: BTreeMap::new(alloc),
        };
        for (entry, function) in functions.by_entry.iter() {
            if function.kind != Kind::Called {
                roots.note_root(alloc, functions, *entry)?;
            }
        }
        Ok(roots)
    }

    /// Notes a root of a function's instructions.
    fn note(
        &mut self,
        alloc: Global,
        functions: &Functions,
        entry: u16,
        root: u16,
    ) -> Result<(), Memory> {
        if let Some(function) = functions.by_entry.get(&entry) {
            for pc in function.body.iter() {
                add_once(alloc, &mut self.by_pc, *pc, root)?;
            }
        }
        Ok(())
    }

    /// Notes all that is reached from a root.
    fn note_root(&mut self, alloc: Global, functions: &Functions, root: u16) -> Result<(), Memory> {
        let mut reached = functions.reached_from(alloc, root)?;
        reached.insert(root)?;
        for entry in reached.iter() {
            self.note(alloc, functions, *entry, root)?;
        }
        Ok(())
    }
}

impl<'a> Accesses<'a> {
    /// The accesses of a report.
    pub fn of(
        alloc: Global,
        report: &Report<'a>,
        depths: Option<Depths>,
        roots: &Roots,
    ) -> Result<Accesses<'a>, Memory> {
        let mut accesses = Accesses {
            rows: BTreeMap::new(alloc),
        };
        for line in report.lines.iter() {
            if let Line::Access(access) = line {
                accesses.row(alloc, depths, access)?.note(access, roots)?;
            }
        }
        Ok(accesses)
    }

    /// The row of an access, which is made where there is none.
    fn row(
        &mut self,
        alloc: Global,
        depths: Option<Depths>,
        access: &Access<'a>,
    ) -> Result<&mut Row<'a>, Memory> {
        let key = self.key_for(access);
        match self.rows.entry(key)? {
            Entry::Occupied(entry) => Ok(entry.into_mut()),
            Entry::Vacant(entry) => Ok(entry.insert(Row::new(alloc, depths, access))),
        }
    }

    /// The key of the row with these addresses, or a free one.
    fn key_for(&self, access: &Access<'a>) -> u64 {
        let first = key_of(access);
        for k in 0..0xFFFFu64 {
            let key = first.wrapping_add(k);
            match self.rows.get(&key) {
                None => return key,
                Some(row) if row.at.text == access.at.text => return key,
                Some(_) => {}
            }
        }
        first
    }
}

impl<'a> Row<'a> {
    /// The row of these addresses, to which nobody goes yet.
    fn new(alloc: Global, depths: Option<Depths>, access: &Access<'a>) -> Row<'a> {
        Row {
            space: access.space,
            at: access.at,
            readers: Vec::new(alloc),
            writers: Vec::new(alloc),
            roots: BTreeSet::new(alloc),
            is_stack: is_stack(depths, access),
        }
    }

    /// Notes an access.
    fn note(&mut self, access: &Access<'_>, roots: &Roots) -> Result<(), Memory> {
        let list = if access.kind.writes() {
            &mut self.writers
        } else {
            &mut self.readers
        };
        if !list.contains(&access.pc) {
            list.push(access.pc)?;
        }
        if let Some(own) = roots.by_pc.get(&access.pc) {
            for root in own.iter() {
                self.roots.insert(*root)?;
            }
        }
        Ok(())
    }

    /// Whether control comes from several roots, and one of the accesses writes.
    pub fn is_shared(&self) -> bool {
        self.roots.len() > 1 && !self.writers.is_empty()
    }
}
