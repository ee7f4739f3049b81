//! Where an instruction stands.

ghost use Rattle.std.specs.Prelude.{◌≡◌, ℕ, List, IfOk};
ghost use Rattle.call_context.specs.declared.node.Frame.{Frame as AFrame};

use call_context::{Calls, Frame};
use no_memory::Memory;
use std::alloc::Global;

/// Where an instruction stands, and what it does to the call string, with what the chip makes of what is known.
pub trait Site {
    /// What is known of a state, as it is handed on.
    type Known: Drop;

    /// The address of the instruction.
    ghost address: { Self → ℕ };

    /// The frame in which it stands.
    ghost frame_of: { Self → AFrame };

    /// The call strings at its targets.
    ghost label: { Self → ℕ → List ℕ };

    /// What is known where either of two is.
    ghost joined: { Self.Known → Self.Known → Self.Known };

    /// The address of the instruction.
    fn pc(&self) -> u16
        ensures { result ≡ address self.now };

    /// The frame in which it stands.
    fn frame(&self) -> Frame
        ensures { result ≡ frame_of self.now };

    /// The call string at a target.
    fn calls_at(&self, to: u16) -> Calls
        ensures { result ≡ label self.now to };

    /// An equal copy, or that memory lacks.
    fn copy(&self, alloc: Global, known: &Self::Known) -> Result<Self::Known, Memory>
        ensures { IfOk result (λ copy. copy ≡ known.now) };

    /// What is known where either of two is, or that memory lacks.
    fn join(
        &self,
        alloc: Global,
        on: &Self::Known,
        jumped: &Self::Known,
    ) -> Result<Self::Known, Memory>
        ensures { IfOk result (λ both. both ≡ joined on.now jumped.now) };
}
