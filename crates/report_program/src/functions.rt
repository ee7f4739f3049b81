//! The functions of a report, and how far each lowers the stack.

use crate::bodies::function_of;
use crate::depth::Depths;
use crate::entries::{Entries, first_of};
use crate::lists::{Lists, add_once};
use crate::program::Program;
use crate::search::Search;
use crate::totals::own_of;
use no_memory::Memory;
use report_lines::Report;
use std::alloc::Global;
use std::collections::{BTreeMap, BTreeSet};

/// How control comes to a function.
#[derive(Clone, Copy, PartialEq, Eq)]
pub enum Kind {
    /// By a reset.
    Reset,
    /// By an interrupt.
    Handler,
    /// By calls.
    Called,
}

/// Where a function goes on in another one.
#[derive(Clone, Copy, PartialEq, Eq)]
pub struct Call {
    pub at: u16,
    pub to: u16,
    /// A jump leaves no return address.
    pub is_jump: bool,
}

/// How many bytes of stack a function takes, those that it calls included.
#[derive(Clone, Copy, PartialEq, Eq)]
pub enum Total {
    Known(u16),
    Unknown,
    /// It calls itself, perhaps by others.
    Recursive,
}

/// A function: what can be reached from its first instruction without a call, a return or an interrupt.
#[derive(Drop)]
pub struct Function {
    pub entry: u16,
    pub kind: Kind,
    /// The addresses of its instructions.
    pub body: Vec<u16>,
    pub calls: Vec<Call>,
    /// How far it lowers the stack by itself, where that is known.
    pub own: Option<u16>,
    pub total: Total,
}

/// The functions by their first addresses.
#[derive(Drop)]
pub struct Functions {
    pub by_entry: BTreeMap<u16, Function>,
    pub reset: Option<u16>,
}

impl Functions {
    /// The functions of a report whose program begins there.
    pub fn of(
        alloc: Global,
        program: &Program<'_>,
        report: &Report<'_>,
        reset: Option<u16>,
    ) -> Result<Functions, Memory> {
        let reset = reset.or(first_of(program, report));
        let entries = Entries::of(alloc, program, reset)?;
        let depths = Depths::of(report);
        let mut functions = Functions {
            by_entry: BTreeMap::new(alloc),
            reset,
        };
        for entry in entries.all.iter() {
            let mut function = function_of(alloc, program, &entries, *entry)?;
            function.own = own_of(program, depths, &function);
            functions.by_entry.insert(*entry, function)?;
        }
        let recursive = functions.recursive(alloc)?;
        functions.sum(program, depths, &recursive);
        Ok(functions)
    }

    /// The functions that call themselves, perhaps by others.
    fn recursive(&self, alloc: Global) -> Result<BTreeSet<u16>, Memory> {
        let mut found = BTreeSet::new(alloc);
        for entry in self.by_entry.keys() {
            if self.reached_from(alloc, *entry)?.contains(entry) {
                found.insert(*entry)?;
            }
        }
        Ok(found)
    }

    /// The functions in which a function goes on, by one call or more.
    pub fn reached_from(&self, alloc: Global, entry: u16) -> Result<BTreeSet<u16>, Memory> {
        let mut search = Search::new(alloc);
        self.reach_calls(&mut search, entry)?;
        for _ in 0..u64::MAX {
            let Some(next) = search.next() else {
                break;
            };
            self.reach_calls(&mut search, next)?;
        }
        Ok(search.into_seen())
    }

    /// Comes to the functions in which one goes on by one call.
    fn reach_calls(&self, search: &mut Search, entry: u16) -> Result<(), Memory> {
        if let Some(function) = self.by_entry.get(&entry) {
            for call in function.calls.iter() {
                search.reach(call.to)?;
            }
        }
        Ok(())
    }

    /// Where each function is called.
    pub fn callers(&self, alloc: Global) -> Result<Lists, Memory> {
        let mut callers = BTreeMap::new(alloc);
        for function in self.by_entry.values() {
            for call in function.calls.iter() {
                add_once(alloc, &mut callers, call.to, call.at)?;
            }
        }
        Ok(callers)
    }

    /// The function whose body has an instruction, the first one where several have it.
    pub fn with(&self, pc: u16) -> Option<&Function> {
        for function in self.by_entry.values() {
            if function.body.contains(&pc) {
                return Some(function);
            }
        }
        None
    }
}
