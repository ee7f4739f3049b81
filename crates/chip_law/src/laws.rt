//! Laws of runs, as functions that do nothing: they hold of every machine.

ghost use Rattle.std.specs.Prelude.{◌≡◌, ◌↔◌, ℕ, Bool, true, List, length};
ghost use Rattle.chip_law.specs.Kept.{RunAlike, RunsUpTo, kept};
ghost use Rattle.chip_law.specs.Outcome.{Leaving};
ghost use Rattle.chip_law.specs.Runs.{RunsBy, RunsTo};
ghost use Rattle.chip_numbers.specs.Single.{Single as ASingle};

use crate::running::RunningChip;

/// A run of so many steps is one by that many steps, each of which is told by what it did.
pub fn runs_are_steps<C: RunningChip>()
    ensures { (program : C.Program) (n : ℕ) (s : C.State) → RunsTo (C.machine program) n s
        ↔ ((steps : List (List ASingle)) × (length steps ≡ n) × RunsBy (C.machine program) steps s) }
{}

/// Where every step is kept, the machine of kept steps has the runs of the chip itself.
pub fn all_runs_are_kept<C: RunningChip>()
    ensures { (program : C.Program) (keeps : List ASingle → Bool) (leaves : C.State → Leaving → Bool)
        → ((items : List ASingle) → keeps items ≡ true) → ((s : C.State) (why : Leaving) → leaves s why ≡ true)
        → RunAlike (kept keeps leaves (C.machine program)) (C.machine program) }
{}

/// Of any run, the steps in front of the first one that isn't kept are a run of the machine of kept steps, and it has no other
/// runs. So what holds of its runs holds of each run of the chip itself, up to the first step that isn't kept.
pub fn runs_up_to<C: RunningChip>()
    ensures { (program : C.Program) (keeps : List ASingle → Bool) (leaves : C.State → Leaving → Bool)
        → RunsUpTo keeps leaves (C.machine program) }
{}
