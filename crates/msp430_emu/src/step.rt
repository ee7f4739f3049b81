//! A step: an instruction, or the entry of an interrupt.

ghost use Rattle.std.specs.Prelude.{◌≡◌, ◌<◌, ◌≤◌, ◌%◌, ℕ, All, IfSome, IfOk, Result, length, nat_lt};
ghost use Rattle.msp430_decode.specs.declared.instr.Instr.TheVariants as instr;
ghost use Rattle.msp430_decode.specs.declared.instr.SingleOperation.TheVariants.{Push, Call};
ghost use Rattle.msp430_decode.specs.Decoding.{decoded};
ghost use Rattle.msp430_decode.specs.Table.{AreSingle, IsInstr};
ghost use Rattle.msp430_chip.specs.declared.device.Device.{Device};
ghost use Rattle.msp430_chip.specs.State as states;
ghost use Rattle.msp430_chip.specs.Step as steps;
ghost use Rattle.choosing.specs.Choosing.{asked_as};
ghost use Rattle.msp430_emu.specs.Drafting.{drafted};
ghost use Rattle.msp430_emu.specs.Here.{Stands};
ghost use Rattle.msp430_emu.specs.Planning as planning;
ghost use Rattle.msp430_emu.specs.Planning.{outcome_of, planned};
ghost use Rattle.msp430_chip.specs.Registers.{AreRegisters};
ghost use Rattle.msp430_emu.specs.Stepping.{Ends, IsStill, Steps};

use crate::commit::{commit, plan_hit};
use crate::double::double;
use crate::effect::{Draft, Plan};
use crate::here::{Here, OneOperand, TwoOperands};
use crate::interrupt::{allows_interrupts, coming, enter};
use crate::items::items_of;
use crate::jump::{jump, return_from_interrupt};
use crate::memory::Layout;
use crate::push::push;
use crate::single::single;
use crate::stepped::Stepped;
use choosing::Unused;
use msp430_chip::{ChipState, Wild};
use msp430_decode::{Instr, NoInstr, SingleOperation, decode, encode};

/// An instruction on one operand.
fn one_operand(here: &Here, one: OneOperand, choices: &mut Unused) -> Option<Draft>
    requires here { Stands here.now }
    requires form { AreSingle one.operation one.width one.operand }
    ensures exact { asked_as (drafted here.now.layout.now here.now.s.now (instr.Single one.operation one.width one.operand)) result choices.new ≡
        steps.one_operand here.now.layout.now here.now.s.now here.now.len one.operation one.width one.operand choices.old }
    ensures form { IfSome result (λ draft. AreRegisters draft.effect.registers) }
{
    match one.operation {
        SingleOperation::Push | SingleOperation::Call => push(here, one, choices),
        SingleOperation::Rrc
        | SingleOperation::Swpb
        | SingleOperation::Rra
        | SingleOperation::Sxt => single(here, one, choices),
    }
}

/// An instruction.
fn executed(here: &Here, instr: Instr, choices: &mut Unused) -> Option<Draft>
    requires here { Stands here.now }
    requires form { IsInstr instr }
    ensures exact { asked_as (drafted here.now.layout.now here.now.s.now instr) result choices.new ≡
        steps.executed here.now.layout.now here.now.s.now instr here.now.len choices.old }
    ensures form { IfSome result (λ draft. AreRegisters draft.effect.registers) }
{
    match instr {
        Instr::Double {
            operation,
            width,
            source,
            destination,
        } => {
            let two = TwoOperands {
                operation,
                width,
                source,
                destination,
            };
            double(here, two, choices)
        }
        Instr::Single {
            operation,
            width,
            operand,
        } => {
            let one = OneOperand {
                operation,
                width,
                operand,
            };
            one_operand(here, one, choices)
        }
        Instr::Jump { condition, offset } => Some(jump(here.layout, here.s, condition, offset)),
        Instr::ReturnFromInterrupt => return_from_interrupt(here.layout, here.s, choices),
    }
}

/// The whole step of an instruction. The bit `late` behind it is what allowed interrupts before it.
fn done(s: &ChipState, instr: &Instr, draft: Draft) -> Plan
    requires { IsInstr instr.now }
    ensures value { (device : Device) → planned device s.now result ≡ drafted device s.now instr.now draft }
    ensures registers { result.registers ≡ draft.effect.registers }
{
    let registers = draft.effect.registers;
    Plan {
        bytes: Some(encode(instr)),
        accesses: draft.accesses,
        registers,
        first: draft.effect.store,
        second: None,
        late: allows_interrupts(s),
    }
}

/// The instruction at PC.
fn run(layout: &Layout, s: &ChipState, choices: &mut Unused) -> Option<Result<Plan, NoInstr>>
    requires size { length s.now.ram ≡ states.ram_size layout.now }
    requires registers { AreRegisters s.now.registers }
    ensures exact { asked_as (outcome_of layout.now s.now) result choices.new ≡
        steps.run layout.now s.now (decoded layout.now.image (states.register_of s.now 0)) choices.old }
    ensures form { IfSome result (λ found. IfOk found (λ plan. AreRegisters plan.registers)) }
{
    match decode(layout.image, s.registers[0]) {
        Ok((instr, len)) => {
            let here = Here { layout, s, len };
            let draft = executed(&here, instr, choices)?;
            Some(Ok(done(s, &instr, draft)))
        }
        Err(none) => Some(Err(none)),
    }
}

/// What a step does, or why no instruction stands at PC.
#[tactic(auto, unfolding(msp430_chip::specs::Step::step_of))]
fn course(layout: &Layout, s: &ChipState, choices: &mut Unused) -> Option<Result<Plan, NoInstr>>
    requires size { length s.now.ram ≡ states.ram_size layout.now }
    requires registers { AreRegisters s.now.registers }
    ensures exact { asked_as (outcome_of layout.now s.now) result choices.new ≡ steps.step_of layout.now s.now choices.old }
    ensures form { IfSome result (λ found. IfOk found (λ plan. AreRegisters plan.registers)) }
{
    let vectors = coming(layout, s);
    let count = vectors.len();
    let option = choices.ask_if(count > 0, 1 + count as u32)?;
    if option == 0 {
        return run(layout, s, choices);
    }
    let vector = vectors.as_slice()[option as usize - 1];
    let plan = enter(layout, s, vector, choices)?;
    Some(Ok(plan))
}

/// Why the model is left by a step that is to write this byte of the program.
fn hitting(plan: &Plan, at: u16) -> Wild
    ensures { result ≡ planning.hitting plan.now.bytes at }
{
    match &plan.bytes {
        Some(_) => Wild::Store(at),
        None => Wild::Push(at),
    }
}

/// Does what a step came to, unless it is to write the program or no instruction stands there.
fn finish(layout: &Layout, state: &mut ChipState, found: Result<Plan, NoInstr>) -> Stepped
    requires size { length state.old.ram ≡ states.ram_size layout.now }
    requires form { IfOk found (λ plan. AreRegisters plan.registers) }
    requires registers { AreRegisters state.old.registers }
    ensures ends { Ends (outcome_of layout.now state.old found) result state.new }
    ensures still { IsStill result → state.new ≡ state.old }
    ensures registers { AreRegisters state.new.registers }
    ensures length { length state.new.ram ≡ length state.old.ram }
    ensures bytes { All (λ b. b < 256) state.old.ram → All (λ b. b < 256) state.new.ram }
{
    let plan = match found {
        Ok(plan) => plan,
        Err(none) => return Stepped::Wild(Wild::NoInstr(none)),
    };
    match plan_hit(layout, &plan) {
        Some(at) => Stepped::Wild(hitting(&plan, at)),
        None => {
            let items = items_of(layout, state, &plan);
            commit(layout, state, &plan);
            Stepped::Met(items)
        }
    }
}

/// A step of a state.
pub(crate) fn advance(layout: &Layout, state: &mut ChipState, choices: &mut Unused) -> Stepped
    requires size { length state.old.ram ≡ states.ram_size layout.now }
    requires registers { AreRegisters state.old.registers }
    ensures steps { Steps layout.now state.old choices.old result state.new choices.new }
    ensures still { IsStill result → state.new ≡ state.old }
    ensures registers { AreRegisters state.new.registers }
    ensures length { length state.new.ram ≡ length state.old.ram }
    ensures bytes { All (λ b. b < 256) state.old.ram → All (λ b. b < 256) state.new.ram }
{
    match course(layout, state, choices) {
        None => Stepped::NeedChoice,
        Some(found) => finish(layout, state, found),
    }
}
