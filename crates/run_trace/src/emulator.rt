//! What a trace asks of a machine.

ghost use Rattle.std.specs.Prelude.{◌≡◌, ℕ};
ghost use Rattle.run_trace.specs.Runner.{IsStep, Runner};

use arrayvec::ArrayVec;
use call_context::Item;
use choosing::Choices;

/// What came of a step.
#[derive(Drop)]
pub enum Ran {
    /// A step was done: what it met, in order, each set with one value.
    Met(ArrayVec<Item, 12>),
    /// No step of the model is left.
    Wild,
    /// The choices end before a question of the step.
    NeedChoice,
}

/// A machine over a program, which steps by choices.
pub trait Emulator {
    /// A state of the chip.
    type State;

    /// Why a step leaves the model.
    type Cause;

    /// What the chip does under this program.
    ghost runner: { Self → Runner Self.State Self.Cause };

    /// The state that the machine is in.
    ghost state: { Self → Self.State };

    /// The address of the next instruction.
    fn pc(&self) -> u16
        ensures { result ≡ (runner self.now).pc (state self.now) };

    /// One step by the next choices.
    fn step(&mut self, choices: &mut Choices) -> Ran
        ensures step { IsStep (runner self.old) (state self.old) choices.old result (state self.new) choices.new }
        ensures program { runner self.new ≡ runner self.old };
}
