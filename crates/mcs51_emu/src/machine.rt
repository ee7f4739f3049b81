//! The machine: a state that runs on.

ghost use Rattle.std.specs.Prelude.{◌≡◌};
ghost use Rattle.mcs51_chip.specs.State.{IsChipState, IsReset, first_state};
ghost use Rattle.mcs51_emu.specs.Stepping.{IsStill, Steps};

use crate::advance::advance;
use crate::stepped::Stepped;
use choosing::Choices;
use mcs51_chip::{ChipState, a_reset_exists, step_laws};
use mcs51_decode::Image;

/// A state of an MCS-51 that runs on.
#[derive(Drop)]
pub struct Machine {
    pub state: ChipState,
    ghost form: { IsChipState state },
}

impl Machine {
    /// A machine behind a reset, with 0 in RAM.
    pub fn reset() -> Machine
        ensures reset { IsReset result.state }
        ensures zeros { result.state ≡ first_state }
    {
        a_reset_exists();
        Machine {
            state: ChipState {
                pc: 0,
                a: 0,
                b: 0,
                sp: 7,
                dpl: 0,
                dph: 0,
                psw: 0,
                ie: 0,
                ip: 0,
                ram: [0; 256],
                serves_low: false,
                serves_high: false,
            },
        }
    }

    /// One step under an image, by the next choices. Where no step is done, machine and choices are as before.
    pub fn step(&mut self, image: &Image, choices: &mut Choices) -> Stepped
        ensures steps { Steps image.now self.old.state choices.old
            result self.new.state choices.new }
        ensures form { IsChipState self.new.state }
        ensures still { IsStill result → self.new ≡ self.old }
        ensures unused { IsStill result → choices.new ≡ choices.old }
    {
        let mut unused = choices.unused();
        let stepped = advance(image, &mut self.state, &mut unused);
        let count = unused.count();
        if matches!(stepped, Stepped::Met(_)) {
            step_laws();
            choices.leave(count);
        }
        stepped
    }
}
