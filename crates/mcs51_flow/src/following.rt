//! What the chip makes of what is known, for the works of its units.

ghost use Rattle.std.specs.Prelude.{◌≡◌, IfOk};
ghost use Rattle.mcs51_flow.specs.Chip.{kept_ran, mcs51_flow};
ghost use Rattle.mcs51_flow.specs.Going as going;
ghost use Rattle.mcs51_state.specs.Known.{is_interrupt as the_interrupt, known_joined};

use crate::chip::Mcs51Chip;
use crate::kept::{Abs, Kept};
use crate::labels::effect_on_calls;
use crate::ran::{Ran, Way};
use crate::running::run;
use abs_pages::CellPages;
use call_context::{Frame, InstrBytes, Item, Sequence, Set};
use chip_analysis::Work;
use chip_flow::{CallEffect, Flow, Followed, Onward, add_handler};
use mcs51_control::goes_back;
use mcs51_decode::{Instr, encode};
use mcs51_entry::{
    Coming, add_entry_items, comings, entered, frame_of, handler_of, interrupt_laws,
};
use mcs51_kept::front;
use mcs51_resume::resume;
use no_memory::Memory;
use std::alloc::Global;
use unit_ways::are_too_many;

/// Whether a frame is an interrupt's.
fn is_interrupt(frame: &Frame) -> bool
    ensures { result ≡ the_interrupt frame.now }
{
    matches!(frame, Frame::Irq { .. })
}

/// Whether an instruction is a return from the interrupt of its frame.
fn leaves_frame(frame: &Frame, at: &Abs, instr: &Instr) -> bool
    ensures { result ≡ going.leaves_frame frame.now at.now instr.now }
{
    match instr {
        Instr::ReturnFromInterrupt => goes_back(is_interrupt(frame), frame, at),
        _ => false,
    }
}

/// Where an instruction goes on that has this address behind it.
fn onward_by(way: Way<Kept>, leaves: bool, limit: u32, behind: u16) -> Onward<Kept>
    ensures { result ≡ going.onward_by way leaves limit behind }
{
    match way {
        Way::Lands {
            targets,
            behind: state,
        } => {
            if leaves {
                return Onward::Leaves(state);
            }
            if are_too_many(limit, &targets) {
                return Onward::Open(targets);
            }
            Onward::Lands {
                targets,
                behind: state,
            }
        }
        Way::Goes { target, on, jumped } => Onward::Jumps {
            behind,
            target,
            on,
            jumped,
        },
    }
}

/// What an instruction makes of what is known of a state from which it makes a step that keeps what is promised.
fn run_kept(
    chip: &Mcs51Chip,
    alloc: Global,
    framed: bool,
    at: &Abs,
    pc: u16,
    instr: &Instr,
) -> Result<Ran<CellPages>, Memory>
    ensures { IfOk result (λ ran. ran ≡ kept_ran chip.now framed pc at.now instr.now) }
{
    match front(alloc, chip.image(), chip.promises(), at, pc, instr)? {
        Some(known) => run(alloc, chip.image(), framed, &known, pc, instr),
        None => run(alloc, chip.image(), framed, at, pc, instr),
    }
}

impl Flow for Mcs51Chip {
    type State = Abs;

    type Instr = Instr;

    type Coming = Coming;

    ghost use Rattle.mcs51_decode.specs.Fitting as fitting;

    ghost flow = { mcs51_flow };

    ghost joined = { known_joined };

    ghost IsInstr = { fitting.IsInstr };

    fn limit(&self) -> u8 {
        self.keeps_rules();
        self.limits().calls
    }

    fn stack(&self, at: &Abs) -> Set {
        Set::B(at.sp)
    }

    fn fetch(&self, pc: u16) -> Option<Instr> {
        self.instr_at(pc)
    }

    fn bytes(&self, instr: &Instr) -> InstrBytes {
        InstrBytes::from_slice(encode(instr).as_slice())
    }

    fn effect(&self, instr: &Instr) -> CallEffect {
        effect_on_calls(instr)
    }

    fn follow(
        &self,
        alloc: Global,
        frame: &Frame,
        at: &Abs,
        pc: u16,
        instr: &Instr,
    ) -> Result<Followed<Abs>, Memory> {
        self.keeps_rules();
        let Ran { items, way } = run_kept(self, alloc, is_interrupt(frame), at, pc, instr)?;
        let leaves = leaves_frame(frame, at, instr);
        Ok(Followed {
            accesses: items,
            onward: onward_by(way, leaves, self.limits().targets, instr.following(pc)),
            store: None,
        })
    }

    fn join(alloc: Global, on: &Abs, jumped: &Abs) -> Result<Abs, Memory> {
        on.join(alloc, jumped)
    }

    fn comings(&self, alloc: Global, at: &Abs) -> Result<Sequence<Coming>, Memory> {
        comings(alloc, at)
    }

    fn enter(
        &self,
        alloc: Global,
        work: &mut Work<Kept>,
        pc: u16,
        at: &Abs,
        coming: &Coming,
    ) -> Result<(), Memory> {
        interrupt_laws();
        add_entry_items(&mut work.items, pc, coming)?;
        let known = entered(alloc, at, pc, coming)?;
        add_handler(
            alloc,
            work,
            handler_of(coming.source),
            frame_of(coming),
            known,
        )
    }

    fn resume(
        &self,
        alloc: Global,
        frame: &Frame,
        at: &Abs,
        pc: u16,
        sp: u16,
        exit: &Abs,
    ) -> Result<Abs, Memory> {
        resume(alloc, is_interrupt(frame), at, pc, sp as u8, exit)
    }
}
