//! The works of units.

ghost use Rattle.std.specs.Prelude.{◌≡◌, ◌++◌, ◌∷◌, IfOk, OnOk};
ghost use Rattle.std.specs.Option.{option_copied};
ghost use Rattle.chip_flow.specs.Going.{going_by};
ghost use Rattle.chip_flow.specs.Works as the_works;

use crate::entries::entering;
use crate::flow::Flow;
use crate::going::{CallSite, Followed, Onward, go_on};
use crate::kept::Kept;
use crate::location::Location;
use crate::returning::back;
use call_context::{InstrBytes, Item, Node, Sequence, Unit};
use chip_analysis::{Cause, Work};
use no_memory::Memory;
use std::alloc::Global;
use unit_ways::Ways;

/// A work that gives nothing.
pub(crate) fn empty_work<A>(alloc: Global) -> Work<A>
    ensures { result ≡ the_works.nothing }
{
    Work {
        items: Sequence::new(alloc),
        posts: Sequence::new(alloc),
        waits: Sequence::new(alloc),
        opens: Sequence::new(alloc),
    }
}

/// Adds the open of a store that is left open.
pub fn add_open(
    opens: &mut Sequence<(u16, Cause)>,
    pc: u16,
    store: Option<Cause>,
) -> Result<(), Memory>
    ensures { OnOk result (opens.new ≡ opens.old ++ the_works.store_opens pc store) }
{
    if let Some(cause) = store {
        opens.push((pc, cause))?;
    }
    Ok(())
}

/// The work of a location at which no instruction stands.
fn stopped<F: Flow>(
    flow: &F,
    alloc: Global,
    pc: u16,
    at: &F::State,
) -> Result<Work<Kept<F::State>>, Memory>
    ensures { IfOk result (λ work. work ≡ the_works.stopped (F.flow flow.now) pc at.now) }
{
    let mut work = entering(flow, alloc, pc, at, Sequence::new(alloc))?;
    work.opens.push((pc, Cause::Fetch))?;
    Ok(work)
}

/// Adds an instruction, where it goes on, and the open of its store.
fn add_instr<F: Flow>(
    alloc: Global,
    ways: &mut Ways<Kept<F::State>>,
    site: &CallSite<F>,
    bytes: InstrBytes,
    onward: Onward<Kept<F::State>>,
    store: Option<Cause>,
) -> Result<(), Memory>
    ensures items { OnOk result (ways.new.items
        ≡ ways.old.items ++ Item.Instr site.now.pc bytes ∷ (going_by F.joined site.now onward).edges) }
    ensures posts { OnOk result (ways.new.posts ≡ ways.old.posts ++ (going_by F.joined site.now onward).posts) }
    ensures opens { OnOk result (ways.new.opens
        ≡ ways.old.opens ++ (going_by F.joined site.now onward).opens ++ the_works.store_opens site.now.pc store) }
{
    ways.items.push(Item::Instr { pc: site.pc, bytes })?;
    go_on(alloc, ways, site, onward)?;
    add_open(&mut ways.opens, site.pc, store)
}

/// The work of a location, by what its instruction makes of what is known.
fn work_by<F: Flow>(
    flow: &F,
    alloc: Global,
    at: &Location<F::State>,
    instr: &F::Instr,
    made: Followed<F::State>,
) -> Result<Work<Kept<F::State>>, Memory>
    requires { F.IsInstr instr.now }
    ensures { IfOk result (λ work. work
        ≡ the_works.work_by F.joined (F.flow flow.now) at.now.pc at.now.calls.now at.now.frame at.now.state.now instr.now made) }
{
    let Followed {
        accesses,
        onward,
        store,
    } = made;
    let Work {
        items,
        posts,
        waits,
        opens,
    } = entering(flow, alloc, at.pc, at.state, accesses)?;
    let mut ways = Ways {
        items,
        posts,
        opens,
    };
    let bytes = flow.bytes(instr);
    let site = CallSite {
        flow,
        pc: at.pc,
        calls: at.calls,
        frame: at.frame,
        effect: flow.effect(instr),
    };
    add_instr(alloc, &mut ways, &site, bytes, onward, store)?;
    let Ways {
        items,
        posts,
        opens,
    } = ways;
    Ok(Work {
        items,
        posts,
        waits,
        opens,
    })
}

/// The work of a location.
fn of_location<F: Flow>(
    flow: &F,
    alloc: Global,
    at: &Location<F::State>,
) -> Result<Work<Kept<F::State>>, Memory>
    ensures { IfOk result (λ work. work ≡ the_works.work_at F.joined (F.flow flow.now)
        at.now.pc at.now.calls.now at.now.frame at.now.state.now ((F.flow flow.now).fetched at.now.pc)) }
{
    match flow.fetch(at.pc) {
        Some(instr) => {
            let made = flow.follow(alloc, &at.frame, at.state, at.pc, &instr)?;
            work_by(flow, alloc, at, &instr, made)
        }
        None => stopped(flow, alloc, at.pc, at.state),
    }
}

/// The work of a unit over its input states.
pub fn work<F: Flow>(
    flow: &F,
    alloc: Global,
    unit: &Unit,
    at: &Kept<F::State>,
    exit: Option<&Kept<F::State>>,
) -> Result<Work<Kept<F::State>>, Memory>
    ensures { IfOk result (λ work. work
        ≡ the_works.work_of F.joined (F.flow flow.now) unit.now at.now (option_copied exit.entry)) }
{
    match unit {
        Unit::One(Node::At(pc, calls, frame)) => {
            let location = Location {
                pc: *pc,
                calls,
                frame: *frame,
                state: at.state(),
            };
            of_location(flow, alloc, &location)
        }
        Unit::Back(Node::At(pc, calls, frame), left) => {
            let location = Location {
                pc: *pc,
                calls,
                frame: *frame,
                state: at.state(),
            };
            back(flow, alloc, &location, left, exit)
        }
        _ => Ok(empty_work(alloc)),
    }
}
