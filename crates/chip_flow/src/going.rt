//! Where an instruction goes on.

ghost use Rattle.std.specs.Prelude.{◌≡◌, ◌++◌, IfOk, OnOk};
ghost use Rattle.chip_flow.specs.Going.{going_by};

use crate::calls::{CallEffect, last_end};
use crate::flow::Flow;
use crate::kept::Kept;
use call_context::{Calls, Frame, Item, Sequence, pop_call, push_call};
use chip_analysis::Cause;
use no_memory::Memory;
use std::alloc::Global;
use std::marker::Model;
use unit_ways::{Site, Ways, add_each, add_either, leave, leave_open};
use value_set::Vs16;

/// Where an instruction goes on, with what is known there.
#[derive(Drop)]
pub enum Onward<S> {
    /// Back to where the interrupt of its frame came.
    Leaves(S),
    /// To more addresses than are followed.
    Open(Vs16),
    /// To each of some addresses.
    Lands {
        targets: Vs16,
        behind: S,
    },
    /// A jump goes on, or to its target. A way that can't be taken has nothing known.
    Jumps {
        behind: u16,
        target: u16,
        on: Option<S>,
        jumped: Option<S>,
    },
}

/// What an instruction makes of what is known.
#[derive(Drop)]
pub struct Followed<S> {
    /// Its accesses to memory.
    pub accesses: Sequence<Item>,
    /// What is known stands behind pointers here, since it is moved often.
    pub onward: Onward<Kept<S>>,
    /// Why its store is left open, if it is.
    pub store: Option<Cause>,
}

/// Where an instruction of a chip stands, and what it does to the call string.
#[derive(Drop)]
pub(crate) struct CallSite<'a, F: Flow> {
    pub flow: &'a F,
    pub pc: u16,
    pub calls: &'a Calls,
    pub frame: Frame,
    pub effect: CallEffect,
}

impl<'a, F: Flow> Model for CallSite<'a, F> {
    ghost use Rattle.chip_flow.specs.Calls as the_calls;
    ghost use Rattle.chip_flow.specs.Works as the_works;

    ghost Value = { the_calls.Site };

    ghost view = { λ site. record { limit = (F.flow site.flow.now).limit; pc = site.pc; calls = site.calls.now; end = the_works.last_end (F.flow site.flow.now) site.calls.now; frame = site.frame; effect = site.effect } };
}

impl<'a, F: Flow> Site for CallSite<'a, F> {
    type Known = Kept<F::State>;

    ghost use Rattle.chip_flow.specs.Calls as the_calls;

    ghost address = { λ site. site.pc };

    ghost frame_of = { λ site. site.frame };

    ghost label = { the_calls.calls_at };

    ghost joined = { F.joined };

    fn pc(&self) -> u16 {
        self.pc
    }

    fn frame(&self) -> Frame {
        self.frame
    }

    fn calls_at(&self, to: u16) -> Calls {
        match self.effect {
            CallEffect::Pushes => push_call(self.calls, self.pc, self.flow.limit()),
            CallEffect::Pops => pop_call(self.calls, last_end(self.flow, self.calls), to),
            CallEffect::Keeps => *self.calls,
        }
    }

    fn copy(&self, _alloc: Global, known: &Kept<F::State>) -> Result<Kept<F::State>, Memory> {
        known.copy()
    }

    fn join(
        &self,
        alloc: Global,
        on: &Kept<F::State>,
        jumped: &Kept<F::State>,
    ) -> Result<Kept<F::State>, Memory> {
        Kept::new(alloc, F::join(alloc, on.state(), jumped.state())?)
    }
}

/// Adds where an instruction goes on.
pub(crate) fn go_on<F: Flow>(
    alloc: Global,
    ways: &mut Ways<Kept<F::State>>,
    site: &CallSite<F>,
    onward: Onward<Kept<F::State>>,
) -> Result<(), Memory>
    ensures items { OnOk result (ways.new.items ≡ ways.old.items ++ (going_by F.joined site.now onward).edges) }
    ensures posts { OnOk result (ways.new.posts ≡ ways.old.posts ++ (going_by F.joined site.now onward).posts) }
    ensures opens { OnOk result (ways.new.opens ≡ ways.old.opens ++ (going_by F.joined site.now onward).opens) }
{
    match onward {
        Onward::Leaves(state) => leave(ways, site.pc, site.frame, state),
        Onward::Open(targets) => leave_open(ways, site.pc, targets),
        Onward::Lands { targets, behind } => add_each(alloc, ways, site, &targets, behind),
        Onward::Jumps {
            behind,
            target,
            on,
            jumped,
        } => add_either(alloc, ways, site, behind, target, on, jumped),
    }
}
