//! Which way stacks grow, as a law.

ghost use Rattle.std.specs.Prelude.{ℕ, Option, Contains};
ghost use Rattle.value_set.specs.declared.form.Form.{Form};
ghost use Rattle.call_context.specs.declared.node.Unit.{Unit as WorkUnit};
ghost use Rattle.call_context.specs.declared.shown.Item.TheVariants.{Stack};
ghost use Rattle.call_context.specs.declared.shown.Set.TheVariants.{W};
ghost use Rattle.mcs51_state.specs.Known.{Known};
ghost use Rattle.mcs51_flow.specs.declared.setting.Setting.{Setting as ASetting};
ghost use Rattle.mcs51_flow.specs.Chip.{mcs51_analysis};

/// A stack grows by bytes: no work shows a word as a stack pointer.
pub fn stacks_grow_by_bytes()
    ensures { (setting : ASetting) (unit : WorkUnit) (at : Known) (exit : Option Known)
        (pc : ℕ) (values : Form)
        → Contains ((mcs51_analysis setting).work unit at exit).items (Stack pc (W values)) → ⊥ }
{}
