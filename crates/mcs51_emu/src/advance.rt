//! A step of a state.

ghost use Rattle.std.specs.Prelude.{◌≡◌, None, Ok, Err, Some, ◌≤◌};
ghost use Rattle.choosing.specs.Choosing.{asked_as};
ghost use Rattle.mcs51_decode.specs.declared.refusal.NoInstr.{NoInstr as ANoInstr};
ghost use Rattle.mcs51_decode.specs.Decoding.{decoded};
ghost use Rattle.mcs51_chip.specs.State.{IsChipState};
ghost use Rattle.mcs51_chip.specs.Step as steps;
ghost use Rattle.mcs51_emu.specs.Listing.{finished, outcome_of};
ghost use Rattle.mcs51_emu.specs.Stepping.{IsStill, Steps};
ghost use Rattle.mcs51_emu.specs.Form.{unheld};

use crate::done::Done;
use crate::form::has_form;
use crate::interrupt::{coming, enter};
use crate::items::items_of;
use crate::perform::perform;
use crate::stepped::Stepped;
use choosing::Unused;
use mcs51_chip::ChipState;
use mcs51_decode::{Image, Instr, NoInstr, decode, encode};

/// The instruction that stands at PC, which is first set to the following address.
#[tactic(auto, using(mcs51_chip::specs::StateFacts::set_pc), unfolding(mcs51_chip::specs::Step::executed))]
fn execute(image: &Image, s: &mut ChipState, instr: Instr, choices: &mut Unused) -> Option<Done>
    requires { IsChipState s.old }
    ensures exact { asked_as (finished s.old s.new) result choices.new ≡
        steps.executed image.now s.old instr choices.old }
    ensures kept { result ≡ None → s.new ≡ s.old }
    ensures unheld { unheld s.new ≤ unheld s.old }
{
    let pc = s.pc;
    s.pc = instr.following(pc);
    match perform(image, s, instr, choices) {
        Some(accesses) => Some(Done {
            bytes: Some(encode(&instr)),
            accesses,
        }),
        None => {
            s.pc = pc;
            None
        }
    }
}

/// The instruction at PC, where one stands there.
fn run(image: &Image, s: &mut ChipState, choices: &mut Unused) -> Option<Result<Done, NoInstr>>
    requires { IsChipState s.old }
    ensures exact { asked_as (outcome_of s.old s.new) result choices.new ≡
        steps.run image.now s.old (decoded image.now s.old.pc) choices.old }
    ensures kept { result ≡ None → s.new ≡ s.old }
    ensures wild { (none : ANoInstr) → result ≡ Some (Err none) → s.new ≡ s.old }
    ensures unheld { unheld s.new ≤ unheld s.old }
{
    match decode(image, s.pc) {
        Ok((instr, _)) => Some(Ok(execute(image, s, instr, choices)?)),
        Err(none) => Some(Err(none)),
    }
}

/// What a step does, or why no instruction stands at PC.
#[tactic(auto, unfolding(mcs51_chip::specs::Step::step_of))]
fn course(image: &Image, s: &mut ChipState, choices: &mut Unused) -> Option<Result<Done, NoInstr>>
    requires { IsChipState s.old }
    ensures exact { asked_as (outcome_of s.old s.new) result choices.new ≡
        steps.step_of image.now s.old choices.old }
    ensures kept { result ≡ None → s.new ≡ s.old }
    ensures wild { (none : ANoInstr) → result ≡ Some (Err none) → s.new ≡ s.old }
    ensures unheld { unheld s.new ≤ unheld s.old }
{
    let sources = coming(s);
    let count = sources.len();
    let option = choices.ask_if(count > 0, 1 + count as u32)?;
    if option == 0 {
        return run(image, s, choices);
    }
    let source = sources.as_slice()[option as usize - 1];
    Some(Ok(enter(s, source)))
}

/// A step of a state.
pub(crate) fn advance(image: &Image, s: &mut ChipState, choices: &mut Unused) -> Stepped
    requires { IsChipState s.old }
    ensures steps { Steps image.now s.old choices.old result s.new choices.new }
    ensures still { IsStill result → s.new ≡ s.old }
    ensures form { IsChipState s.new }
{
    let pc = s.pc;
    let sp = s.sp;
    let found = course(image, s, choices);
    has_form(s);
    match found {
        None => Stepped::NeedChoice,
        Some(Err(none)) => Stepped::Wild(none),
        Some(Ok(done)) => Stepped::Met(items_of(pc, sp, &done, s.pc)),
    }
}
