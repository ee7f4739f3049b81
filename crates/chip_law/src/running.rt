//! What runs, for laws that hold of each machine.

ghost use Rattle.chip_law.specs.Machine.{Machine};

/// A chip as it runs, whatever an analysis knows of it.
pub trait RunningChip {
    /// What runs: the program, and what there is beside it.
    type Program;

    /// One state of the chip itself.
    type State;

    /// What the chip does with a program, in single states.
    ghost machine: { Self.Program → Machine Self.State };
}
