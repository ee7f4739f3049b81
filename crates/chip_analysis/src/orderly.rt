//! The trait of a chip whose analysis is orderly.

ghost use Rattle.chip_analysis.specs.Analysis.{AreAlike};
ghost use Rattle.chip_analysis.specs.Orderly.{IsOrderly};

use crate::chip::Chip;

/// A chip whose analysis keeps what it owes by itself, for generic code to use. Of what the chip does nothing is said.
pub trait OrderlyChip: Chip {
    /// The programs of which the laws hold.
    ghost program: { Self.Base → Type 0 };

    /// Programs under the same rules and limits.
    ghost alike: { Self.Base → Self.Base → Type 0 };

    /// The chip's own program is one of those.
    fn is_program(&self)
        ensures { program (Self.base self.now) };

    /// The analysis keeps its form and is in order, and it leaves a site open only where a stated limit is broken.
    fn order_laws()
        ensures { (b : Self.Base) → program b → IsOrderly (Self.analysis b) };

    /// What programs under the same rules and limits have in common.
    fn alike_laws()
        ensures { (a b : Self.Base) → alike a b → AreAlike (Self.analysis a) (Self.analysis b) };
}
