//! Which way stacks grow, as a law.

ghost use Rattle.std.specs.Prelude.{ℕ, Option, Contains};
ghost use Rattle.value_set.specs.declared.form.Form.{Form};
ghost use Rattle.call_context.specs.declared.node.Unit.{Unit as WorkUnit};
ghost use Rattle.call_context.specs.declared.shown.Item.TheVariants.{Stack};
ghost use Rattle.call_context.specs.declared.shown.Set.TheVariants.{B};
ghost use Rattle.msp430_state.specs.Known.{Known};
ghost use Rattle.msp430_flow.specs.declared.setting.Setting.{Setting as ASetting};
ghost use Rattle.msp430_flow.specs.Chip.{msp430_analysis};

/// A stack grows by words: no work shows a byte as a stack pointer.
pub fn stacks_grow_by_words()
    ensures { (setting : ASetting) (unit : WorkUnit) (at : Known) (exit : Option Known)
        (pc : ℕ) (values : Form)
        → Contains ((msp430_analysis setting).work unit at exit).items (Stack pc (B values)) → ⊥ }
{}
