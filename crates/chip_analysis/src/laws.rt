//! Laws of the definitions, as functions that do nothing.

ghost use Rattle.std.specs.Prelude.{◌≡◌};
ghost use Rattle.std.specs.Bool.{Decides};
ghost use Rattle.chip_analysis.specs.declared.cause.Cause.{Cause as ACause};

use crate::cause::Cause;
use call_context::equal_items_are_one;

/// The test of causes holds exactly where the two are one.
pub fn equal_causes_are_one()
    ensures { (a b : ACause) → Decides (⟦<Cause as PartialEq>⟧.eq a b) (a ≡ b) }
{
    equal_items_are_one();
}
