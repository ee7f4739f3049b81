//! Interrupts that come at a location.

ghost use Rattle.std.specs.Prelude.{◌≡◌, ◌++◌, ◌∷◌, [], Contains, IfOk, OnOk, map};
ghost use Rattle.std.specs.List.{flat_map};
ghost use Rattle.chip_flow.specs.Works as the_works;

use crate::flow::Flow;
use crate::kept::Kept;
use call_context::{Calls, Frame, Item, Node, Sequence};
use chip_analysis::Work;
use no_memory::Memory;
use std::alloc::Global;

/// Posts what is known where a handler begins, and waits for what its frame leaves at a known stack pointer.
pub fn add_handler<S: Drop>(
    alloc: Global,
    work: &mut Work<Kept<S>>,
    handler: u16,
    frame: Frame,
    known: S,
) -> Result<(), Memory>
    ensures items { OnOk result (work.new.items ≡ work.old.items) }
    ensures posts { OnOk result (work.new.posts ≡ work.old.posts ++ (Node.At handler [] frame, known) ∷ []) }
    ensures waits { OnOk result (work.new.waits ≡ work.old.waits ++ the_works.waits_for frame) }
    ensures opens { OnOk result (work.new.opens ≡ work.old.opens) }
{
    let kept = Kept::new(alloc, known)?;
    work.posts
        .push((Node::At(handler, Calls::new(), frame), kept))?;
    if let Frame::Irq { sp: Some(_), .. } = frame {
        work.waits.push(frame)?;
    }
    Ok(())
}

/// Adds each of some interrupts that come at a location.
fn add_entries<F: Flow>(
    flow: &F,
    alloc: Global,
    work: &mut Work<Kept<F::State>>,
    pc: u16,
    at: &F::State,
    all: &[F::Coming],
) -> Result<(), Memory>
    requires { all.now ≡ (F.flow flow.now).comings at.now }
    ensures items { OnOk result (work.new.items ≡ work.old.items ++ flat_map ((F.flow flow.now).entry_items pc) all.now) }
    ensures posts { OnOk result (work.new.posts ≡ work.old.posts ++ map (the_works.entry_post (F.flow flow.now) pc at.now) all.now) }
    ensures waits { OnOk result (work.new.waits ≡ work.old.waits ++ flat_map (the_works.entry_waits (F.flow flow.now)) all.now) }
    ensures opens { OnOk result (work.new.opens ≡ work.old.opens ++ flat_map ((F.flow flow.now).entry_opens pc) all.now) }
{
    for coming in all {
        flow.enter(alloc, work, pc, at, coming)?;
    }
    Ok(())
}

/// The work of a location but for that of its instruction, of which the accesses are there: interrupts may come.
pub(crate) fn entering<F: Flow>(
    flow: &F,
    alloc: Global,
    pc: u16,
    at: &F::State,
    accesses: Sequence<Item>,
) -> Result<Work<Kept<F::State>>, Memory>
    ensures { IfOk result (λ work. work ≡ the_works.entering (F.flow flow.now) pc at.now accesses) }
{
    let mut work = Work {
        items: accesses,
        posts: Sequence::new(alloc),
        waits: Sequence::new(alloc),
        opens: Sequence::new(alloc),
    };
    work.items.push(Item::Stack {
        pc,
        at: flow.stack(at),
    })?;
    let all = flow.comings(alloc, at)?;
    add_entries(flow, alloc, &mut work, pc, at, all.as_slice())?;
    Ok(work)
}
