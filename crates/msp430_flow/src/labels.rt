//! What instructions do to the call string.

ghost use Rattle.std.specs.Prelude.{◌≡◌};
ghost use Rattle.msp430_flow.specs.Labels as labels;

use chip_flow::CallEffect;
use msp430_decode::{Destination, Instr, Operation, Register, SingleOperation, Source, Width};

/// What an instruction does to the call string; RET is `MOV @SP+,PC`.
pub fn effect_of(instr: &Instr) -> CallEffect
    ensures { result ≡ labels.effect_of instr.now }
{
    match instr {
        Instr::Double {
            operation: Operation::Mov,
            width: Width::Word,
            source: Source::IndirectIncrement(Register::Sp),
            destination: Destination::Register(Register::Pc),
        } => CallEffect::Pops,
        Instr::Single {
            operation: SingleOperation::Call,
            ..
        } => CallEffect::Pushes,
        _ => CallEffect::Keeps,
    }
}
