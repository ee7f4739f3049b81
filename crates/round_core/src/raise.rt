//! What posts make of nodes.

ghost use Rattle.std.specs.Option.{option_map};
ghost use Rattle.std.specs.Prelude.{◌≡◌, IfOk, IfSome, OnOk, MatchOption, None};
ghost use Rattle.round_core.specs.Ahead.{AreBefore, IsRow, IsStill};
ghost use Rattle.round_core.specs.Nodes.{IsHeld};
ghost use Rattle.book_rules.specs.Machine.{held_at, place_of, risen_state, raised, all_raised};
ghost use Rattle.round_core.specs.Raise.{risen_over, RisesOver};

use crate::ahead::{Ahead, Looked};
use crate::nodes::Nodes;
use crate::raised::{Raised, Risen, index_of};
use call_context::Node;
use chip_analysis::Chip;
use no_memory::Memory;
use std::alloc::Global;

/// How often a state rises to joins, and then to widenings to marks and to classes. The next rise gives top.
const JOINS: u32 = 15;

const MARKS: u32 = 47;

const CLASSES: u32 = 63;

/// The state after one more rise, which the new number of rises decides.
fn state_after<C: Chip>(
    alloc: Global,
    chip: &C,
    node: &Node,
    held: &C::Abs,
    posted: &C::Abs,
    rises: u32,
) -> Result<C::Abs, Memory>
    ensures { IfOk result (λ state. state ≡ risen_state (C.analysis (C.base chip.now)) node.now held.now posted.now rises) }
{
    if rises <= JOINS {
        chip.join(alloc, held, posted)
    } else if rises <= MARKS {
        chip.widen(alloc, held, posted, false)
    } else if rises <= CLASSES {
        chip.widen(alloc, held, posted, true)
    } else {
        chip.top(alloc, node)
    }
}

/// The place of a node, its state, and how often that rose, where earlier posts raised some nodes. It is quickly found
/// where the guess of its place is right.
fn held_in<'a, A>(
    nodes: &'a Nodes<A>,
    earlier: &'a Raised<A>,
    node: &Node,
    guess: usize,
) -> Option<(usize, &'a A, u32)>
    requires { RisesOver nodes.now.rows earlier.now }
    ensures place { option_map (λ found. found.0) result ≡ place_of (risen_over nodes.now.rows earlier.now) node.now }
    ensures held { (let hs = risen_over nodes.now.rows earlier.now in
        MatchOption result (held_at hs node.now ≡ None) (λ found. IsHeld hs node.now found.1.now found.2)) }
{
    match index_of(earlier.rows.as_slice(), node) {
        Some(index) => {
            let risen = &earlier.rows[index];
            Some((risen.place, &risen.state, risen.rises))
        }
        None => nodes.find_near(node, guess),
    }
}

/// What a post makes of a held state, unless it is within that. Rises that no number counts are refused.
pub fn risen_row<C: Chip>(
    alloc: Global,
    chip: &C,
    node: &Node,
    held: &C::Abs,
    rises: u32,
    posted: &C::Abs,
) -> Result<Option<(C::Abs, u32)>, Memory>
    ensures { IfOk result (IsRow (C.analysis (C.base chip.now)) node.now held.now rises posted.now) }
{
    if chip.within(posted, held) {
        return Ok(None);
    }
    let Some(rises) = rises.checked_add(1) else {
        return Err(Memory);
    };
    let state = state_after(alloc, chip, node, held, posted, rises)?;
    Ok(Some((state, rises)))
}

/// The same, as it was looked ahead where the node has risen no more since.
fn row_of<C: Chip>(
    alloc: Global,
    chip: &C,
    node: &Node,
    held: &C::Abs,
    rises: u32,
    posted: &C::Abs,
    looked: Option<Looked<C::Abs>>,
) -> Result<Option<(C::Abs, u32)>, Memory>
    requires looked { IfSome looked (λ l. l.rises ≡ rises
        → IsRow (C.analysis (C.base chip.now)) node.now held.now rises posted.now l.row) }
    ensures { IfOk result (IsRow (C.analysis (C.base chip.now)) node.now held.now rises posted.now) }
{
    if let Some(looked) = looked {
        if looked.rises == rises {
            return Ok(looked.row);
        }
    }
    risen_row(alloc, chip, node, held, rises, posted)
}

/// Raises a node to a post, beside what earlier posts raised, and answers its place.
fn raise_one<C: Chip>(
    alloc: Global,
    chip: &C,
    nodes: &Nodes<C::Abs>,
    all: &mut Raised<C::Abs>,
    node: &Node,
    posted: &C::Abs,
    guess: usize,
    looked: Option<Looked<C::Abs>>,
) -> Result<usize, Memory>
    requires over { RisesOver nodes.now.rows all.old }
    requires looked { IfSome looked
        (IsStill (C.analysis (C.base chip.now)) (risen_over nodes.now.rows all.old) (node.now, posted.now)) }
    ensures over { OnOk result (RisesOver nodes.now.rows all.new) }
    ensures raised { OnOk result (risen_over nodes.now.rows all.new
        ≡ raised (C.analysis (C.base chip.now)) (risen_over nodes.now.rows all.old) (node.now, posted.now)) }
{
    match held_in(nodes, all, node, guess) {
        Some((place, held, rises)) => {
            match row_of(alloc, chip, node, held, rises, posted, looked)? {
                Some((state, rises)) => all.put(Risen {
                    place,
                    node: *node,
                    state,
                    rises,
                }),
                None => Ok(place),
            }
        }
        None => {
            let state = chip.copy(alloc, posted)?;
            let place = all.next;
            all.put(Risen {
                place,
                node: *node,
                state,
                rises: 1,
            })
        }
    }
}

/// The nodes that posts raise, with what each has after the last of them. The node of the first post may stand at `guess`,
/// and those of further ones behind it, as they do where they were first posted together. What was looked ahead is taken where
/// it still holds.
pub fn all_raised<C: Chip>(
    alloc: Global,
    chip: &C,
    nodes: &Nodes<C::Abs>,
    posts: &[(Node, C::Abs)],
    guess: usize,
    ahead: Ahead<C::Abs>,
) -> Result<Raised<C::Abs>, Memory>
    requires ahead { AreBefore (C.analysis (C.base chip.now)) nodes.now.rows posts.now ahead }
    ensures over { IfOk result (RisesOver nodes.now.rows) }
    ensures raised { IfOk result (λ all. risen_over nodes.now.rows all
        ≡ all_raised (C.analysis (C.base chip.now)) nodes.now.rows posts.now) }
{
    let mut all = Raised::new(alloc, nodes.len());
    let mut near = guess;
    let mut ahead = ahead;
    for (node, posted) in posts {
        let looked = ahead.take_first();
        near = raise_one(alloc, chip, nodes, &mut all, node, posted, near, looked)?.wrapping_add(1);
    }
    all.guess = near.wrapping_sub(posts.len());
    Ok(all)
}
