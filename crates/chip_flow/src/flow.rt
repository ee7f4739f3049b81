//! What a chip makes of what is known.

ghost use Rattle.std.specs.Prelude.{◌≡◌, ◌++◌, ◌∷◌, [], ◌≤◌, Contains, IfOk, IfSome, OnOk};
ghost use Rattle.chip_flow.specs.Flow.{Flow as AFlow};
ghost use Rattle.chip_flow.specs.Works.{FitsIn, entry_post, entry_waits};

use crate::calls::CallEffect;
use crate::going::Followed;
use crate::kept::Kept;
use call_context::{Frame, InstrBytes, Item, Sequence, Set};
use chip_analysis::Work;
use no_memory::Memory;
use std::alloc::Global;

/// What a chip makes of what is known of a state, of which the works of its units are made.
pub trait Flow {
    /// What is known of a state.
    type State: Drop;

    /// An instruction.
    type Instr: Drop;

    /// An interrupt that comes.
    type Coming: Drop;

    /// All of it, as formulas.
    ghost flow: { Self → AFlow Self.State Self.Instr Self.Coming };

    /// What is known where either of two is.
    ghost joined: { Self.State → Self.State → Self.State };

    /// The instructions of the chip.
    ghost IsInstr: { Self.Instr → Type 0 };

    /// How many call sites are kept.
    fn limit(&self) -> u8
        ensures exact { result ≡ (flow self.now).limit }
        ensures few { result ≤ 8 };

    /// What SP may be.
    fn stack(&self, at: &Self::State) -> Set
        ensures { result ≡ (flow self.now).stack at.now };

    /// The instruction at an address, if one stands there.
    fn fetch(&self, pc: u16) -> Option<Self::Instr>
        ensures exact { result ≡ (flow self.now).fetched pc }
        ensures in_range { IfSome result IsInstr };

    /// The bytes of an instruction.
    fn bytes(&self, instr: &Self::Instr) -> InstrBytes
        requires { IsInstr instr.now }
        ensures { result ≡ (flow self.now).bytes instr.now };

    /// What an instruction does to the call string.
    fn effect(&self, instr: &Self::Instr) -> CallEffect
        ensures { result ≡ (flow self.now).effect instr.now };

    /// What an instruction at an address makes of what is known, or that memory lacks.
    fn follow(
        &self,
        alloc: Global,
        frame: &Frame,
        at: &Self::State,
        pc: u16,
        instr: &Self::Instr,
    ) -> Result<Followed<Self::State>, Memory>
        requires { IsInstr instr.now }
        ensures { IfOk result (λ made. made ≡ (flow self.now).followed frame.now at.now pc instr.now) };

    /// What is known where either of two is, or that memory lacks.
    fn join(alloc: Global, on: &Self::State, jumped: &Self::State) -> Result<Self::State, Memory>
        ensures { IfOk result (λ both. both ≡ joined on.now jumped.now) };

    /// The interrupts that may come.
    fn comings(&self, alloc: Global, at: &Self::State) -> Result<Sequence<Self::Coming>, Memory>
        ensures { IfOk result (λ all. all ≡ (flow self.now).comings at.now) };

    /// Adds what an interrupt that comes at an address shows, posts, waits for and leaves open.
    fn enter(
        &self,
        alloc: Global,
        work: &mut Work<Kept<Self::State>>,
        pc: u16,
        at: &Self::State,
        coming: &Self::Coming,
    ) -> Result<(), Memory>
        requires { Contains ((flow self.now).comings at.now) coming.now }
        ensures items { OnOk result (work.new.items ≡ work.old.items ++ (flow self.now).entry_items pc coming.now) }
        ensures posts { OnOk result (work.new.posts ≡ work.old.posts ++ entry_post (flow self.now) pc at.now coming.now ∷ []) }
        ensures waits { OnOk result (work.new.waits ≡ work.old.waits ++ entry_waits (flow self.now) coming.now) }
        ensures opens { OnOk result (work.new.opens ≡ work.old.opens ++ (flow self.now).entry_opens pc coming.now) };

    /// What is known where a handler that began at this stack pointer returns to, or that memory lacks.
    fn resume(
        &self,
        alloc: Global,
        frame: &Frame,
        at: &Self::State,
        pc: u16,
        sp: u16,
        exit: &Self::State,
    ) -> Result<Self::State, Memory>
        requires { FitsIn ((flow self.now).stack at.now) sp }
        ensures { IfOk result (λ state. state ≡ (flow self.now).resumed frame.now at.now pc sp exit.now) };
}
