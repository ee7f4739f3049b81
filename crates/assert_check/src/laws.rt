//! What a list of assertions says of every run, by those of them that works break.

ghost use Rattle.std.specs.Prelude.{◌≡◌, ℕ, List, [], flat_map};
ghost use Rattle.call_context.specs.declared.shown.Item.{Item};
ghost use Rattle.chip_analysis.specs.declared.chip.Work.{Work};
ghost use Rattle.closing_law.specs.Covered.{AreCovering};
ghost use Rattle.assert_check.specs.Assertions.{broken_of};
ghost use Rattle.assert_check.specs.Holding.{Holds, HoldsBut};
ghost use Rattle.assert_check.specs.declared.assertion.Assertion.{Assertion};

use chip_law::LawfulChip;

/// Works that show whatever a run meets: each assertion of a list that isn't named among those which their items break holds of
/// every run.
pub fn unnamed_assertions_hold<C: LawfulChip>()
    ensures { (base : C.Base) (works : List (Work C.Abs)) (line_of : Item → List ℕ) (list : List (ℕ × Assertion))
        → AreCovering (C.machine base) works
        → HoldsBut (C.machine base) list (broken_of line_of list (flat_map (λ work. work.items) works)) }
{}

/// Works that show whatever a run meets, and none of whose items breaks an assertion of the list: the list holds.
pub fn unbroken_lists_hold<C: LawfulChip>()
    ensures { (base : C.Base) (works : List (Work C.Abs)) (line_of : Item → List ℕ) (list : List (ℕ × Assertion))
        → AreCovering (C.machine base) works
        → broken_of line_of list (flat_map (λ work. work.items) works) ≡ [] → Holds (C.machine base) list }
{
    unnamed_assertions_hold::<C>();
}
