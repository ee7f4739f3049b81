//! The machine: a state that runs on.

ghost use Rattle.std.specs.Prelude.{◌≡◌, ◌≤◌, IfOk};
ghost use Rattle.msp430_chip.specs.State.{IsChipState, IsResetOf, first_state};
ghost use Rattle.msp430_emu.specs.Stepping.{IsMsp430, IsStill, Steps, device_of, device_under};

use crate::interrupt::image_word;
use crate::memory::{Layout, even};
use crate::state::Machine;
use crate::step::advance;
use crate::stepped::Stepped;
use choosing::Choices;
use image::{Image, Rules};
use msp430_chip::{ChipState, Ram, step_laws};
use no_memory::Memory;
use std::alloc::Global;

impl Machine {
    /// A machine under the rules of an MSP430, behind a reset. All that a reset leaves open is 0.
    pub fn reset(alloc: Global, image: &Image, rules: Rules) -> Result<Machine, Memory>
        requires { IsMsp430 rules }
        ensures reset { IfOk result (λ machine. IsResetOf (device_under rules image.now) machine.state) }
        ensures zeros { IfOk result (λ machine. machine.state ≡ first_state (device_under rules image.now)) }
        ensures ram { IfOk result (λ machine. machine.ram ≡ (device_under rules image.now).ram) }
    {
        let Rules::Msp430(ram) = rules else {
            unreachable!()
        };
        let mut registers = [0; 16];
        registers[0] = even(image_word(image, 0xFFFE));
        let state = ChipState {
            registers,
            ram: Ram::new(alloc, ram.hi as usize + 1 - ram.lo as usize)?,
            late: false,
        };
        Ok(Machine { ram, state })
    }

    /// One step under an image, by the next choices. Where no step is done, machine and choices are as before.
    pub fn step(&mut self, image: &Image, choices: &mut Choices) -> Stepped
        ensures steps { Steps (device_of image.now self.old.ram) self.old.state choices.old result self.new.state choices.new }
        ensures form { IsChipState (device_of image.now self.old.ram) self.new.state }
        ensures still { IsStill result → self.new ≡ self.old }
        ensures unused { IsStill result → choices.new ≡ choices.old }
        ensures ram { self.new.ram ≡ self.old.ram }
    {
        let layout = Layout {
            image,
            ram: self.ram,
        };
        let mut unused = choices.unused();
        let stepped = advance(&layout, &mut self.state, &mut unused);
        let count = unused.count();
        if matches!(stepped, Stepped::Met(_)) {
            step_laws();
            choices.leave(count);
        }
        stepped
    }
}
