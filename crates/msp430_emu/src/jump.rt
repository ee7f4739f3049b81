//! Jumps, and RETI.

ghost use Rattle.std.specs.Prelude.{◌≡◌, ◌<◌, IfSome, false, length};
ghost use Rattle.msp430_decode.specs.declared.instr.Instr.TheVariants as instr;
ghost use Rattle.msp430_chip.specs.State as states;
ghost use Rattle.msp430_chip.specs.Step as steps;
ghost use Rattle.choosing.specs.Choosing.{asked_as};
ghost use Rattle.msp430_emu.specs.Drafting.{drafted};
ghost use Rattle.msp430_chip.specs.Registers.{AreRegisters};

use crate::effect::{Access, Accesses, Draft, Effect};
use crate::memory::{Layout, even, read_word};
use crate::operands::behind;
use choosing::Unused;
use msp430_chip::ChipState;
use msp430_decode::{Condition, offset_target};

/// Whether a jump is taken, by SR.
fn is_taken(condition: Condition, status: u16) -> bool
    ensures { result ≡ steps.is_taken condition status }
{
    match condition {
        Condition::NotEqual => status / 2 % 2 == 0,
        Condition::Equal => status / 2 % 2 == 1,
        Condition::NoCarry => status % 2 == 0,
        Condition::Carry => status % 2 == 1,
        Condition::Negative => status / 4 % 2 == 1,
        Condition::GreaterOrEqual => status / 4 % 2 == status / 256 % 2,
        Condition::Less => status / 4 % 2 != status / 256 % 2,
        Condition::Always => true,
    }
}

/// A jump.
#[tactic(auto, using(msp430_chip::specs::Registers::registers_kept), unfolding(msp430_chip::specs::Step::jump))]
pub(crate) fn jump(layout: &Layout, s: &ChipState, condition: Condition, offset: u16) -> Draft
    requires offset { offset < 1024 }
    requires registers { AreRegisters s.now.registers }
    ensures value { drafted layout.now s.now (instr.Jump condition offset) result ≡ steps.jump s.now condition offset }
    ensures form { AreRegisters result.effect.registers }
{
    let mut registers = s.registers;
    registers[0] = if is_taken(condition, s.registers[2]) {
        offset_target(s.registers[0], offset)
    } else {
        behind(s, 2)
    };
    Draft {
        accesses: Accesses {
            first: None,
            second: None,
            third: None,
        },
        effect: Effect {
            registers,
            store: None,
        },
    }
}

/// RETI takes SR from the stack, and then PC.
#[tactic(auto, using(msp430_chip::specs::Registers::registers_kept))]
pub(crate) fn return_from_interrupt(
    layout: &Layout,
    s: &ChipState,
    choices: &mut Unused,
) -> Option<Draft>
    requires size { length s.now.ram ≡ states.ram_size layout.now }
    requires registers { AreRegisters s.now.registers }
    ensures exact { asked_as (drafted layout.now s.now instr.ReturnFromInterrupt) result choices.new ≡
        steps.return layout.now s.now choices.old }
    ensures form { IfSome result (λ draft. AreRegisters draft.effect.registers) }
{
    let sp = s.registers[1];
    let second = sp.wrapping_add(2);
    let status = read_word(layout, &s.ram, sp, choices)?;
    let target = read_word(layout, &s.ram, second, choices)?;
    let mut registers = s.registers;
    registers[0] = even(target);
    registers[1] = sp.wrapping_add(4);
    registers[2] = status % 512;
    Some(Draft {
        accesses: Accesses {
            first: None,
            second: Some(Access::of_stack(false, sp)),
            third: Some(Access::of_stack(false, second)),
        },
        effect: Effect {
            registers,
            store: None,
        },
    })
}
