//! What the sets of the formulas hold, for every set of numbers below a modulus. Proofs over formulas call these.

ghost use Rattle.std.specs.Prelude.{ℕ, ◌<◌, ◌≤◌, length};
ghost use Rattle.value_set.specs.declared.form.Form.{Form as AForm};
ghost use Rattle.value_set.specs.Form.{Has, IsNormal, members};
ghost use Rattle.value_set.specs.Laws.{SetLaws};

/// The members of a set stand below its modulus.
pub fn members_are_below()
    ensures { (m v : ℕ) (set : AForm) → IsNormal m set → Has m set v → v < m }
{}

/// Every set has a member.
pub fn sets_have_members()
    ensures { (m : ℕ) (set : AForm) → IsNormal m set → 1 ≤ length (members m set) }
{}

/// All laws of sets.
pub fn set_laws()
    ensures { SetLaws }
{}
