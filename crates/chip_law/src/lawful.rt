//! The trait of a chip whose laws are proved.

ghost use Rattle.chip_law.specs.Laws.{Cover, IsLawful};
ghost use Rattle.chip_law.specs.Machine.{Machine};

use chip_analysis::OrderlyChip;

/// A chip whose laws are proved, for generic code to use.
pub trait LawfulChip: OrderlyChip {
    /// One state of the chip itself.
    type State;

    /// What the chip does with a program, in single states.
    ghost machine: { Self.Base → Machine Self.State };

    /// When an abstract state stands for a single one.
    ghost covers: { Self.Base → Cover Self.State Self.Abs };

    /// The laws: the start stands for each reset state, and the work of a unit for each step.
    fn laws()
        ensures { (b : Self.Base) → Self.program b → IsLawful (machine b) (Self.analysis b) (covers b) };
}
