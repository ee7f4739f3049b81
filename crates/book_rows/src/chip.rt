//! Small chips, whose states are numbers.

ghost use Rattle.std.specs.Prelude.{◌≡◌, ◌++◌, IfOk, option_to_list};
ghost use Rattle.book_rows.specs.Chips as chips;

use crate::shape::Shape;
use call_context::{Calls, Frame, Node, Sequence, Unit};
use chip_analysis::{Chip, Work};
use no_memory::Memory;
use std::alloc::Global;
use std::sync::atomic::AtomicU64;
use std::sync::atomic::Ordering::SeqCst;

/// A chip of a shape, which counts the calls of it. Its first works run out of memory.
#[derive(Drop)]
pub struct Small {
    shape: Shape,
    failures: u64,
    works: AtomicU64,
    joins: AtomicU64,
    to_marks: AtomicU64,
    to_classes: AtomicU64,
    tops: AtomicU64,
}

pub fn failing(shape: Shape, failures: u64) -> Small {
    Small {
        shape,
        failures,
        works: AtomicU64::new(0),
        joins: AtomicU64::new(0),
        to_marks: AtomicU64::new(0),
        to_classes: AtomicU64::new(0),
        tops: AtomicU64::new(0),
    }
}

pub fn of_shape(shape: Shape) -> Small {
    failing(shape, 0)
}

impl Small {
    /// How many joins, widenings to marks and to classes, and tops there were.
    pub fn counts(&self) -> (u64, u64, u64, u64) {
        (
            self.joins.load(SeqCst),
            self.to_marks.load(SeqCst),
            self.to_classes.load(SeqCst),
            self.tops.load(SeqCst),
        )
    }
}

pub fn node_at(pc: u16) -> Node
    ensures { result ≡ chips.node_at pc }
{
    Node::At(pc, Calls::new(), Frame::Base)
}

/// The frame of the handler.
pub const HANDLER: Frame = Frame::Irq {
    vector: 1,
    sp: Some(640),
    level: 0,
};

/// A work with two posts at most.
fn posting(
    alloc: Global,
    first: Option<(Node, u32)>,
    second: Option<(Node, u32)>,
) -> Result<Work<u32>, Memory>
    ensures { IfOk result (λ work. work ≡ chips.posting (option_to_list first ++ option_to_list second)) }
{
    let mut posts = Sequence::new(alloc);
    if let Some(post) = first {
        posts.push(post)?;
    }
    if let Some(post) = second {
        posts.push(post)?;
    }
    Ok(Work {
        items: Sequence::new(alloc),
        posts,
        waits: Sequence::new(alloc),
        opens: Sequence::new(alloc),
    })
}

/// The work that posts twice to location 4, enters the handler at 8, and waits for its frame.
fn entering(alloc: Global) -> Result<Work<u32>, Memory>
    ensures { IfOk result (λ work. work ≡ chips.entering) }
{
    let mut work = posting(alloc, Some((node_at(4), 1)), Some((node_at(4), 2)))?;
    work.posts.push((Node::At(8, Calls::new(), HANDLER), 0))?;
    work.waits.push(HANDLER)?;
    Ok(work)
}

/// The work of a location of the chip with an interrupt, or of a return.
fn interrupted(alloc: Global, unit: &Unit) -> Result<Work<u32>, Memory>
    ensures { IfOk result (λ work. work ≡ chips.interrupted unit.now) }
{
    match unit {
        Unit::One(Node::At(0, _, Frame::Base)) => entering(alloc),
        Unit::One(Node::At(_, _, Frame::Irq { .. })) => {
            posting(alloc, Some((Node::Exit(8, HANDLER), 0)), None)
        }
        Unit::One(_) => posting(alloc, None, None),
        Unit::Back(..) => posting(alloc, Some((node_at(4), 3)), None),
    }
}

/// The work of a location of a tree to a last one.
fn branching(alloc: Global, pc: u16, last: u16) -> Result<Work<u32>, Memory>
    ensures { IfOk result (λ work. work ≡ chips.branching last pc) }
{
    if 2 * (pc as u32) + 2 <= last as u32 {
        let next = 2 * pc + 1;
        posting(
            alloc,
            Some((node_at(next), 0)),
            Some((node_at(next + 1), 0)),
        )
    } else {
        posting(alloc, None, None)
    }
}

/// The work of a location of those that race.
fn racing(alloc: Global, pc: u16, at: u32) -> Result<Work<u32>, Memory>
    ensures { IfOk result (λ work. work ≡ chips.racing pc at) }
{
    let (first, second) = match pc {
        0 => (Some((node_at(1), 0)), Some((node_at(2), 0))),
        1 => (
            Some((node_at(3), at.saturating_mul(2).saturating_add(2))),
            None,
        ),
        2 => (Some((node_at(3), at.saturating_add(1))), None),
        _ if at < 4 => (Some((node_at(1), at)), Some((node_at(2), at))),
        _ => (None, None),
    };
    posting(alloc, first, second)
}

/// The work of a location of two that count.
fn pairing(alloc: Global, pc: u16, at: u32) -> Result<Work<u32>, Memory>
    ensures { IfOk result (λ work. work ≡ chips.pairing pc at) }
{
    let (first, second) = match pc {
        0 => (Some((node_at(1), 0)), Some((node_at(2), 0))),
        _ => (Some((node_at(pc), at.saturating_add(1))), None),
    };
    posting(alloc, first, second)
}

/// The work of a location of a shape.
fn location_work(alloc: Global, shape: Shape, pc: u16, at: u32) -> Result<Work<u32>, Memory>
    ensures { IfOk result (λ work. work ≡ chips.location_work shape pc at) }
{
    match shape {
        Shape::Counting | Shape::Restless => {
            posting(alloc, Some((node_at(0), at.saturating_add(1))), None)
        }
        Shape::Loop => posting(alloc, Some((node_at(0), 1)), None),
        Shape::Pair => pairing(alloc, pc, at),
        Shape::Chain(last) if pc < last => posting(alloc, Some((node_at(pc + 1), 0)), None),
        Shape::Tree(last) => branching(alloc, pc, last),
        Shape::Racing => racing(alloc, pc, at),
        Shape::Chain(_) | Shape::Interrupted => posting(alloc, None, None),
    }
}

/// The work of a unit of a shape.
fn work_of(alloc: Global, shape: Shape, unit: &Unit, at: u32) -> Result<Work<u32>, Memory>
    ensures { IfOk result (λ work. work ≡ chips.work_of shape unit.now at) }
{
    if let Shape::Interrupted = shape {
        return interrupted(alloc, unit);
    }
    match unit {
        Unit::One(Node::At(pc, ..)) => location_work(alloc, shape, *pc, at),
        _ => posting(alloc, None, None),
    }
}

impl Chip for Small {
    type Base = Shape;

    type Abs = u32;

    ghost use Rattle.book_rows.specs.Chips.{small as the_small};

    ghost base = { λ chip. chip.shape };

    ghost analysis = { the_small };

    fn start(&self, _alloc: Global) -> Result<(Node, u32), Memory> {
        Ok((node_at(0), 0))
    }

    fn work(
        &self,
        alloc: Global,
        unit: &Unit,
        at: &u32,
        _exit: Option<&u32>,
    ) -> Result<Work<u32>, Memory> {
        if self.works.fetch_add(1, SeqCst) < self.failures {
            return Err(Memory);
        }
        work_of(alloc, self.shape, unit, *at)
    }

    fn copy(&self, _alloc: Global, a: &u32) -> Result<u32, Memory> {
        Ok(*a)
    }

    fn join(&self, _alloc: Global, held: &u32, new: &u32) -> Result<u32, Memory> {
        self.joins.fetch_add(1, SeqCst);
        Ok((*held).max(*new))
    }

    fn widen(&self, _alloc: Global, held: &u32, new: &u32, coarse: bool) -> Result<u32, Memory> {
        if coarse {
            self.to_classes.fetch_add(1, SeqCst);
        } else {
            self.to_marks.fetch_add(1, SeqCst);
        }
        Ok((*held).max(*new))
    }

    fn top(&self, _alloc: Global, _node: &Node) -> Result<u32, Memory> {
        self.tops.fetch_add(1, SeqCst);
        Ok(u32::MAX)
    }

    fn within(&self, new: &u32, held: &u32) -> bool {
        !matches!(self.shape, Shape::Restless) && *new <= *held
    }
}
