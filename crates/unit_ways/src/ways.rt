//! Adding where a unit goes on.

ghost use Rattle.std.specs.Prelude.{◌≡◌, ◌++◌, ◌∷◌, [], OnOk};
ghost use Rattle.unit_ways.specs.Targets.{targets_of};
ghost use Rattle.unit_ways.specs.Ways as the_ways;
ghost use Rattle.unit_ways.specs.Ways.{each_way, edges_of, posts_of, ways_of, ways_to};
ghost use Rattle.chip_analysis.specs.declared.cause.Cause.TheVariants as causes;

use crate::site::Site;
use crate::targets::{last_place, target, turn};
use call_context::{Frame, Item, Node, Sequence};
use chip_analysis::Cause;
use no_memory::Memory;
use std::alloc::Global;
use value_set::Vs16;

/// What a unit shows, the states that it posts, each at its node, and the addresses that it leaves open, each with its cause.
#[derive(Drop)]
pub struct Ways<A> {
    pub items: Sequence<Item>,
    pub posts: Sequence<(Node, A)>,
    pub opens: Sequence<(u16, Cause)>,
}

/// Adds a way from one address to another, in the same frame.
fn add<S: Site>(ways: &mut Ways<S::Known>, site: &S, to: u16, known: S::Known) -> Result<(), Memory>
    ensures items { OnOk result (ways.new.items
        ≡ ways.old.items ++ edges_of (S.address site.now) ((to, known) ∷ [])) }
    ensures posts { OnOk result (ways.new.posts
        ≡ ways.old.posts ++ posts_of (S.label site.now) (S.frame_of site.now) ((to, known) ∷ [])) }
    ensures opens { OnOk result (ways.new.opens ≡ ways.old.opens) }
{
    let from = site.pc();
    ways.items.push(Item::Edge { from, to })?;
    ways.posts
        .push((Node::At(to, site.calls_at(to), site.frame()), known))?;
    Ok(())
}

/// Adds a way to each address of a set, with the same known at each, from the least address on.
pub fn add_each<S: Site>(
    alloc: Global,
    ways: &mut Ways<S::Known>,
    site: &S,
    targets: &Vs16,
    known: S::Known,
) -> Result<(), Memory>
    ensures items { OnOk result (ways.new.items
        ≡ ways.old.items ++ edges_of (S.address site.now) (ways_to targets.now known)) }
    ensures posts { OnOk result (ways.new.posts
        ≡ ways.old.posts ++ posts_of (S.label site.now) (S.frame_of site.now) (ways_to targets.now known)) }
    ensures opens { OnOk result (ways.new.opens ≡ ways.old.opens) }
{
    let turn = turn(targets);
    let last = last_place(targets);
    for place in 0..last {
        let copy = site.copy(alloc, &known)?;
        add(ways, site, target(targets, turn, place), copy)?;
    }
    add(ways, site, target(targets, turn, last), known)
}

/// Adds two ways, the one to the lesser address first.
fn add_both<S: Site>(
    ways: &mut Ways<S::Known>,
    site: &S,
    behind: u16,
    target: u16,
    on: S::Known,
    jumped: S::Known,
) -> Result<(), Memory>
    ensures items { OnOk result (ways.new.items
        ≡ ways.old.items ++ edges_of (S.address site.now) (the_ways.in_order (behind, on) (target, jumped))) }
    ensures posts { OnOk result (ways.new.posts
        ≡ ways.old.posts ++ posts_of (S.label site.now) (S.frame_of site.now)
        (the_ways.in_order (behind, on) (target, jumped))) }
    ensures opens { OnOk result (ways.new.opens ≡ ways.old.opens) }
{
    if target < behind {
        add(ways, site, target, jumped)?;
        return add(ways, site, behind, on);
    }
    add(ways, site, behind, on)?;
    add(ways, site, target, jumped)
}

/// Adds the two ways of a jump, where they can be. Two that lead to one address are joined.
pub fn add_either<S: Site>(
    alloc: Global,
    ways: &mut Ways<S::Known>,
    site: &S,
    behind: u16,
    target: u16,
    on: Option<S::Known>,
    jumped: Option<S::Known>,
) -> Result<(), Memory>
    ensures items { OnOk result (ways.new.items
        ≡ ways.old.items ++ edges_of (S.address site.now) (ways_of S.joined behind target on jumped)) }
    ensures posts { OnOk result (ways.new.posts
        ≡ ways.old.posts ++ posts_of (S.label site.now) (S.frame_of site.now)
        (ways_of S.joined behind target on jumped)) }
    ensures opens { OnOk result (ways.new.opens ≡ ways.old.opens) }
{
    match (on, jumped) {
        (None, None) => Ok(()),
        (Some(on), None) => add(ways, site, behind, on),
        (None, Some(jumped)) => add(ways, site, target, jumped),
        (Some(on), Some(jumped)) => {
            if behind == target {
                let joined = site.join(alloc, &on, &jumped)?;
                return add(ways, site, behind, joined);
            }
            add_both(ways, site, behind, target, on, jumped)
        }
    }
}

/// Leaves a site open that has more targets than are followed.
pub fn leave_open<A>(ways: &mut Ways<A>, pc: u16, targets: Vs16) -> Result<(), Memory>
    ensures items { OnOk result (ways.new.items ≡ ways.old.items) }
    ensures posts { OnOk result (ways.new.posts ≡ ways.old.posts) }
    ensures opens { OnOk result (ways.new.opens ≡ ways.old.opens ++ (pc, causes.Targets targets) ∷ []) }
{
    ways.opens.push((pc, Cause::Targets(targets)))?;
    Ok(())
}

/// Leaves what is known behind a return from an interrupt at the exit of its frame.
pub fn leave<A: Drop>(ways: &mut Ways<A>, pc: u16, frame: Frame, known: A) -> Result<(), Memory>
    ensures items { OnOk result (ways.new.items ≡ ways.old.items ++ (the_ways.back_at pc frame known).edges) }
    ensures posts { OnOk result (ways.new.posts ≡ ways.old.posts ++ (the_ways.back_at pc frame known).posts) }
    ensures opens { OnOk result (ways.new.opens ≡ ways.old.opens ++ (the_ways.back_at pc frame known).opens) }
{
    ways.posts.push((Node::Exit(pc, frame), known))?;
    Ok(())
}
