//! What instructions do to the call string.

ghost use Rattle.std.specs.Prelude.{◌≡◌};
ghost use Rattle.mcs51_flow.specs.Labels as labels;

use chip_flow::CallEffect;
use mcs51_decode::Instr;

/// What an instruction does to the call string.
pub fn effect_on_calls(instr: &Instr) -> CallEffect
    ensures { result ≡ labels.effect_on_calls instr.now }
{
    match instr {
        Instr::AbsoluteCall(_) | Instr::LongCall(_) => CallEffect::Pushes,
        Instr::Return => CallEffect::Pops,
        _ => CallEffect::Keeps,
    }
}
