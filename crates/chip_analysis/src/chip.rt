//! The trait of a chip, and the work of a unit.

ghost use Rattle.chip_analysis.specs.Analysis.{Analysis};
ghost use Rattle.std.specs.Option.{option_copied};
ghost use Rattle.std.specs.Prelude.{IfOk, ◌≡◌};

use crate::cause::Cause;
use call_context::{Frame, Item, Node, Sequence, Unit};
use no_memory::Memory;
use std::alloc::Global;

/// What the work of a unit gives.
#[derive(Drop)]
pub struct Work<A> {
    /// What the unit shows.
    pub items: Sequence<Item>,
    /// The states that it leaves, each at its node.
    pub posts: Sequence<(Node, A)>,
    /// The interrupt frames whose return it waits for.
    pub waits: Sequence<Frame>,
    /// The sites that it leaves open, each with its cause.
    pub opens: Sequence<(u16, Cause)>,
}

/// A chip as an analysis sees it: over abstract states, each of which stands for many states of the chip.
pub trait Chip {
    /// The program and the options: plain data, which says all that the analysis makes.
    type Base: Drop;

    /// An abstract state.
    type Abs: Drop + Send;

    /// The chip's program and options.
    ghost base: { Self → Self.Base };

    /// What an analysis makes of a program with options.
    ghost analysis: { Self.Base → Analysis Self.Abs };

    /// The node and the abstract state that each run begins in.
    fn start(&self, alloc: Global) -> Result<(Node, Self::Abs), Memory>
        ensures node { IfOk result (λ start. start.0 ≡ (analysis (base self.now)).first_node) }
        ensures state { IfOk result (λ start. start.1 ≡ (analysis (base self.now)).first_state) };

    /// The work of a unit over its input states. A unit that returns from an interrupt has the state of its
    /// exit as a second input.
    fn work(
        &self,
        alloc: Global,
        unit: &Unit,
        at: &Self::Abs,
        exit: Option<&Self::Abs>,
    ) -> Result<Work<Self::Abs>, Memory>
        ensures { IfOk result (λ work. work ≡ (analysis (base self.now)).work unit.now at.now (option_copied exit.entry)) };

    /// An equal state.
    fn copy(&self, alloc: Global, a: &Self::Abs) -> Result<Self::Abs, Memory>
        ensures { IfOk result (λ copy. copy ≡ a.now) };

    /// A state that stands for all that either stands for.
    fn join(&self, alloc: Global, held: &Self::Abs, new: &Self::Abs) -> Result<Self::Abs, Memory>
        ensures { IfOk result (λ joined. joined ≡ (analysis (base self.now)).join held.now new.now) };

    /// Such a state that grows in few steps: to marks of the program, or where `coarse` to whole classes.
    fn widen(
        &self,
        alloc: Global,
        held: &Self::Abs,
        new: &Self::Abs,
        coarse: bool,
    ) -> Result<Self::Abs, Memory>
        ensures { IfOk result (λ widened. widened ≡ (analysis (base self.now)).widen coarse held.now new.now) };

    /// The state that stands for all that may stand at the node.
    fn top(&self, alloc: Global, node: &Node) -> Result<Self::Abs, Memory>
        ensures { IfOk result (λ top. top ≡ (analysis (base self.now)).top node.now) };

    /// Whether all that `new` stands for stands under `held`, found part by part.
    fn within(&self, new: &Self::Abs, held: &Self::Abs) -> bool
        ensures { result ≡ (analysis (base self.now)).within new.now held.now };
}
