//! Returns from interrupts.

ghost use Rattle.std.specs.Prelude.{◌≡◌, ◌++◌, ◌∷◌, [], IfOk, IsTrue, OnOk};
ghost use Rattle.std.specs.Option.{option_copied};
ghost use Rattle.chip_flow.specs.Works as the_works;

use crate::flow::Flow;
use crate::kept::Kept;
use crate::location::Location;
use crate::works::empty_work;
use call_context::{Frame, Item, Node, Set};
use chip_analysis::Work;
use no_memory::Memory;
use std::alloc::Global;
use value_set::members_are_below;

/// Whether a set of bytes or of words has a number.
fn may_be(set: &Set, n: u16) -> bool
    ensures exact { result ≡ the_works.may_be set.now n }
    ensures fits { IsTrue result → the_works.FitsIn set.now n }
{
    match *set {
        Set::B(values) => {
            let _form = values.form();
            members_are_below();
            if n >= 256 {
                return false;
            }
            values.has(n as u8)
        }
        Set::W(values) => values.has(n),
    }
}

/// Adds where the handler of an interrupt goes on, with what is known there.
fn add_resumption<F: Flow>(
    flow: &F,
    alloc: Global,
    work: &mut Work<Kept<F::State>>,
    at: &Location<F::State>,
    from: u16,
    sp: u16,
    exit: &F::State,
) -> Result<(), Memory>
    requires { the_works.FitsIn ((F.flow flow.now).stack at.now.state.now) sp }
    ensures items { OnOk result (work.new.items ≡ work.old.items ++ Item.Edge from at.now.pc ∷ []) }
    ensures posts { (let known = (F.flow flow.now).resumed at.now.frame at.now.state.now at.now.pc sp exit.now in
        OnOk result (work.new.posts ≡ work.old.posts ++ (Node.At at.now.pc at.now.calls.now at.now.frame, known) ∷ [])) }
    ensures waits { OnOk result (work.new.waits ≡ work.old.waits) }
    ensures opens { OnOk result (work.new.opens ≡ work.old.opens) }
{
    work.items.push(Item::Edge { from, to: at.pc })?;
    let state = flow.resume(alloc, &at.frame, at.state, at.pc, sp, exit)?;
    let kept = Kept::new(alloc, state)?;
    work.posts
        .push((Node::At(at.pc, *at.calls, at.frame), kept))?;
    Ok(())
}

/// Where the handler of an interrupt goes on, at the stack pointer of its frame.
fn resumed<F: Flow>(
    flow: &F,
    alloc: Global,
    at: &Location<F::State>,
    from: u16,
    sp: u16,
    exit: &F::State,
) -> Result<Work<Kept<F::State>>, Memory>
    ensures { IfOk result (λ work. work
        ≡ the_works.resumption (F.flow flow.now) at.now.pc at.now.calls.now at.now.frame from sp at.now.state.now exit.now) }
{
    let mut work = empty_work(alloc);
    if may_be(&flow.stack(at.state), sp) {
        add_resumption(flow, alloc, &mut work, at, from, sp, exit)?;
    }
    Ok(work)
}

/// The work of a return to a location.
pub(crate) fn back<F: Flow>(
    flow: &F,
    alloc: Global,
    at: &Location<F::State>,
    exit_node: &Node,
    exit: Option<&Kept<F::State>>,
) -> Result<Work<Kept<F::State>>, Memory>
    ensures { IfOk result (λ work. work ≡ the_works.return_work (F.flow flow.now)
        at.now.pc at.now.calls.now at.now.frame exit_node.now at.now.state.now (option_copied exit.entry)) }
{
    match (exit_node, exit) {
        (Node::Exit(from, Frame::Irq { sp: Some(sp), .. }), Some(exit)) => {
            resumed(flow, alloc, at, *from, *sp, exit.state())
        }
        _ => Ok(empty_work(alloc)),
    }
}
