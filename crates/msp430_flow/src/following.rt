//! What the chip makes of what is known, for the works of its units.

ghost use Rattle.std.specs.Prelude.{◌≡◌, ◌<◌, IfOk, slice_index_or};
ghost use Rattle.msp430_decode.specs.Table.{IsInstr};
ghost use Rattle.msp430_branch.specs.Cuts.{known_cut};
ghost use Rattle.msp430_flow.specs.Running as running;
ghost use Rattle.msp430_state.specs.Known.{is_interrupt as the_interrupt};

use crate::chip::Msp430Chip;
use crate::kept::{Abs, Kept};
use crate::labels::effect_of;
use crate::running::{fact_of, leaves_frame, run, stored_width};
use crate::storing::{add_push_opens, store_of};
use call_context::{Frame, InstrBytes, Sequence, Set};
use chip_analysis::Work;
use chip_flow::{CallEffect, Flow, Followed, Onward, add_handler};
use msp430_alu::Worked;
use msp430_branch::cut;
use msp430_decode::{Condition, Instr, encode, offset_target};
use msp430_entry::{
    Coming, add_entry_items, comings, entered, frame_of, handler_of, interrupt_laws,
};
use msp430_kept::front;
use msp430_resume::resume;
use msp430_state::FlagFact;
use no_memory::Memory;
use std::alloc::Global;
use unit_ways::are_too_many;
use value_bits::Tri;
use value_set::Vs16;

/// Whether a frame is an interrupt's.
fn is_interrupt(frame: &Frame) -> bool
    ensures { result ≡ the_interrupt frame.now }
{
    matches!(frame, Frame::Irq { .. })
}

/// Bit 3.
fn bit_3(bits: &[Tri; 9]) -> Tri
    ensures { result ≡ slice_index_or bits.now 3 Tri.Either }
{
    bits[3]
}

/// What is known of GIE.
fn gie_of(at: &Abs) -> Tri
    ensures { result ≡ running.gie_of at.now }
{
    bit_3(&at.status.bits)
}

/// What is known behind an instruction, where GIE was so in front of it.
fn followed(after: Abs, late: Tri, fact: Option<FlagFact>) -> Abs
    ensures { result ≡ running.followed late fact after }
{
    let mut after = after;
    after.late = late;
    after.fact = fact;
    after
}

/// What is known where a jump is taken, or isn't, if that can be.
fn outcome(state: Abs, condition: Condition, taken: bool) -> Option<Abs>
    ensures { result ≡ known_cut condition taken state }
{
    let mut state = state;
    if cut(&mut state, condition, taken) {
        Some(state)
    } else {
        None
    }
}

/// The ways of an instruction: a jump goes on and to its target, and all else to each address that PC may have then.
fn ways_of(
    alloc: Global,
    pc: u16,
    instr: &Instr,
    next: Vs16,
    behind: Abs,
) -> Result<Onward<Kept>, Memory>
    requires { IsInstr instr.now }
    ensures { IfOk result (λ onward. onward ≡ running.ways_onward pc instr.now next behind) }
{
    match *instr {
        Instr::Jump { condition, offset } => {
            let jumped = outcome(behind.copy(alloc)?, condition, true);
            let on = outcome(behind, condition, false);
            Ok(Onward::Jumps {
                behind: pc.wrapping_add(2),
                target: offset_target(pc, offset),
                on: Kept::if_known(alloc, on)?,
                jumped: Kept::if_known(alloc, jumped)?,
            })
        }
        _ => Ok(Onward::Lands {
            targets: next,
            behind: Kept::new(alloc, behind)?,
        }),
    }
}

/// Where an instruction goes on, by the set of the next addresses, what is known behind it, and GIE in front of it.
fn onward_by(
    alloc: Global,
    limit: u32,
    late: Tri,
    pc: u16,
    instr: &Instr,
    next: Vs16,
    after: Abs,
) -> Result<Onward<Kept>, Memory>
    requires { IsInstr instr.now }
    ensures { IfOk result (λ onward. onward ≡ running.onward_by limit late pc instr.now next after) }
{
    if are_too_many(limit, &next) {
        return Ok(Onward::Open(next));
    }
    let fact = fact_of(instr, &after);
    ways_of(alloc, pc, instr, next, followed(after, late, fact))
}

impl Flow for Msp430Chip {
    type State = Abs;

    type Instr = Instr;

    type Coming = Coming;

    ghost use Rattle.msp430_decode.specs.Table as table;
    ghost use Rattle.msp430_flow.specs.Chip.{msp430_flow};
    ghost use Rattle.msp430_state.specs.Known.{known_joined};

    ghost flow = { msp430_flow };

    ghost joined = { known_joined };

    ghost IsInstr = { table.IsInstr };

    fn limit(&self) -> u8 {
        self.keeps_rules();
        self.limits().calls
    }

    fn stack(&self, at: &Abs) -> Set {
        Set::W(at.sp)
    }

    fn fetch(&self, pc: u16) -> Option<Instr> {
        self.instr_at(pc)
    }

    fn bytes(&self, instr: &Instr) -> InstrBytes {
        InstrBytes::from_slice(encode(instr).as_slice())
    }

    fn effect(&self, instr: &Instr) -> CallEffect {
        effect_of(instr)
    }

    fn follow(
        &self,
        alloc: Global,
        frame: &Frame,
        at: &Abs,
        pc: u16,
        instr: &Instr,
    ) -> Result<Followed<Abs>, Memory> {
        self.keeps_rules();
        let device = self.device();
        let in_front = front(alloc, device, self.promises(), at, pc, instr)?;
        let at = match &in_front {
            Some(known) => known,
            None => at,
        };
        let Worked {
            after,
            next,
            accesses,
            store,
        } = run(alloc, device, is_interrupt(frame), at, pc, instr)?;
        let store = store_of(device, stored_width(instr), store);
        let onward = if leaves_frame(device, frame, at, instr) {
            let behind = followed(after, gie_of(at), None);
            Onward::Leaves(Kept::new(alloc, behind)?)
        } else {
            let limit = self.limits().targets;
            onward_by(alloc, limit, gie_of(at), pc, instr, next, after)?
        };
        Ok(Followed {
            accesses,
            onward,
            store,
        })
    }

    fn join(alloc: Global, on: &Abs, jumped: &Abs) -> Result<Abs, Memory> {
        on.join(alloc, jumped)
    }

    fn comings(&self, alloc: Global, at: &Abs) -> Result<Sequence<Coming>, Memory> {
        self.keeps_rules();
        comings(alloc, self.device(), at)
    }

    fn enter(
        &self,
        alloc: Global,
        work: &mut Work<Kept>,
        pc: u16,
        at: &Abs,
        coming: &Coming,
    ) -> Result<(), Memory> {
        self.keeps_rules();
        interrupt_laws();
        let device = self.device();
        add_entry_items(&mut work.items, device, pc, coming)?;
        add_push_opens(&mut work.opens, device, pc, coming)?;
        let known = entered(alloc, device, at, pc, &coming.sp)?;
        let handler = handler_of(device, coming.vector);
        add_handler(alloc, work, handler, frame_of(coming), known)
    }

    fn resume(
        &self,
        alloc: Global,
        frame: &Frame,
        at: &Abs,
        pc: u16,
        sp: u16,
        exit: &Abs,
    ) -> Result<Abs, Memory> {
        resume(alloc, is_interrupt(frame), at, pc, sp, exit)
    }
}
