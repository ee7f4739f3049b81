//! Instructions as one table.

ghost use Rattle.std.specs.Prelude.{◌≡◌, IfOk, IsSome, Some};
ghost use Rattle.mcs51_decode.specs.Targets.{following as the_following, target_of};
ghost use Rattle.mcs51_flow.specs.Running as running;

use crate::changing::pass;
use crate::ran::{Ran, Way};
use crate::showing::show;
use call_context::{Item, Sequence};
use chip_flow::Kept;
use entry_value::Cells;
use mcs51_control::return_targets;
use mcs51_decode::{Image, Instr};
use mcs51_jumps::{
    Ways, show_bit, show_comparison, show_counter, ways_by_comparison, ways_by_counter,
    ways_on_bit, ways_on_condition,
};
use mcs51_state::{State, jump_targets};
use no_memory::Memory;
use std::alloc::Global;
use value_set::Vs16;

/// The target that the bytes of a jump or a call at an address name.
fn named_target(pc: u16, instr: &Instr) -> u16
    requires { IsSome (target_of pc instr.now) }
    ensures { target_of pc instr.now ≡ Some result }
{
    match instr.target(pc) {
        Some(target) => target,
        None => unreachable!(),
    }
}

/// The addresses at which an instruction goes on that is no conditional jump.
#[tactic(auto, unfolding(crate::specs::Running::targets_of))]
fn targets_of<M: Cells>(framed: bool, pc: u16, at: &State<M>, instr: &Instr) -> Vs16
    ensures { result ≡ running.targets_of framed (the_following pc instr.now) at.now instr.now }
{
    match *instr {
        Instr::AbsoluteJump(_) | Instr::AbsoluteCall(_) | Instr::LongJump(_) | Instr::LongCall(_) =>
            Vs16::one(named_target(pc, instr)),
        Instr::JumpIndirect => jump_targets(at),
        Instr::Return | Instr::ReturnFromInterrupt => return_targets(framed, at),
        _ => Vs16::one(instr.following(pc)),
    }
}

/// An instruction that is no conditional jump.
fn land<M: Cells>(
    alloc: Global,
    image: &Image,
    framed: bool,
    at: &State<M>,
    pc: u16,
    instr: &Instr,
) -> Result<Ran<M>, Memory>
    ensures { IfOk result (λ ran. ran ≡ running.landed image.now framed pc (the_following pc instr.now) at.now instr.now) }
{
    let mut items = Sequence::new(alloc);
    let next = instr.following(pc);
    show(&mut items, pc, next, at, instr)?;
    let targets = targets_of(framed, pc, at, instr);
    let mut behind = at.copy(alloc)?;
    pass(image, framed, next, &mut behind, instr)?;
    let behind = Kept::new(alloc, behind)?;
    Ok(Ran {
        items,
        way: Way::Lands { targets, behind },
    })
}

/// A conditional jump, by its ways.
fn fork<M: Cells>(
    alloc: Global,
    target: u16,
    items: Sequence<Item>,
    ways: Ways<M>,
) -> Result<Ran<M>, Memory>
    ensures { IfOk result (λ ran. ran ≡ running.forked target items ways) }
{
    let Ways { on, jumped } = ways;
    let on = Kept::if_known(alloc, on)?;
    let jumped = Kept::if_known(alloc, jumped)?;
    Ok(Ran {
        items,
        way: Way::Goes { target, on, jumped },
    })
}

/// What an instruction at an address makes of what is known of a state.
#[tactic(auto, unfolding(crate::specs::Running::ran_from))]
pub fn run<M: Cells>(
    alloc: Global,
    image: &Image,
    framed: bool,
    at: &State<M>,
    pc: u16,
    instr: &Instr,
) -> Result<Ran<M>, Memory>
    ensures { IfOk result (λ ran. ran ≡ running.ran_of image.now framed pc at.now instr.now) }
{
    match *instr {
        Instr::JumpOn { condition, .. } => {
            let ways = ways_on_condition(alloc, at, condition)?;
            fork(alloc, named_target(pc, instr), Sequence::new(alloc), ways)
        }
        Instr::JumpOnBit { test, bit, .. } => {
            let ways = ways_on_bit(alloc, framed, at, test, bit)?;
            let mut items = Sequence::new(alloc);
            show_bit(&mut items, pc, test, bit, &ways.jumped)?;
            fork(alloc, named_target(pc, instr), items, ways)
        }
        Instr::CompareJump { comparison, .. } => {
            let ways = ways_by_comparison(alloc, framed, at, comparison)?;
            let mut items = Sequence::new(alloc);
            show_comparison(&mut items, pc, at, comparison)?;
            fork(alloc, named_target(pc, instr), items, ways)
        }
        Instr::DecrementJump { counter, .. } => {
            let ways = ways_by_counter(alloc, framed, at, counter)?;
            let mut items = Sequence::new(alloc);
            show_counter(&mut items, pc, at, counter)?;
            fork(alloc, named_target(pc, instr), items, ways)
        }
        _ => land(alloc, image, framed, at, pc, instr),
    }
}
