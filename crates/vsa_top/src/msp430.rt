//! The MSP430 as it is disassembled and run.

ghost use Rattle.std.specs.Prelude.{◌≡◌, ◌%◌, IfOk};
ghost use Rattle.msp430_chip.specs.Memory.{HasRam};
ghost use Rattle.msp430_chip.specs.State.{first_state};
ghost use Rattle.vsa_top.specs.Msp430.{msp430_reads, msp430_runner};

use choosing::Choices;
use disassembly::{Code, Line};
use image::Image;
use msp430_chip::{ChipState, Device, Wild};
use msp430_decode::{decode, encode, one_of_three};
use msp430_emu::{Machine, Stepped};
use msp430_text::text;
use no_memory::Memory;
use run_trace::{Emulator, Ran};
use std::alloc::Global;
use std::marker::Model;

/// The MSP430's instructions stand at even addresses.
pub struct Msp430Code;

impl Code for Msp430Code {
    ghost unit = { 2 };

    ghost reads = { msp430_reads };

    fn unit() -> u32 {
        2
    }

    fn line_at(image: &Image, at: u16) -> Option<Line> {
        match decode(image, at) {
            Ok((instr, _)) => Some(Line {
                bytes: encode(&instr),
                text: text(&instr, at),
            }),
            Err(_) => None,
        }
    }

    fn one_answer() {
        one_of_three();
    }
}

/// A device that runs.
#[derive(Drop)]
pub struct Msp430Run<'a> {
    device: &'a Device,
    machine: Machine,
}

impl<'a> Model for Msp430Run<'a> {
    ghost use Rattle.std.specs.Prelude.{◌≡◌};
    ghost use Rattle.msp430_chip.specs.declared.device.Device.{Device};
    ghost use Rattle.msp430_chip.specs.declared.state.ChipState.{ChipState};

    ghost Value = { Device × ChipState };

    ghost view = { λ run. (run.device.now, run.machine.state) };

    ghost invariant = { λ run. run.machine.ram ≡ run.device.now.ram };
}

impl<'a> Msp430Run<'a> {
    /// The device after a reset that leaves 0 in all that is any.
    pub fn reset(alloc: Global, device: &'a Device) -> Result<Msp430Run<'a>, Memory>
        requires { HasRam device.now }
        ensures { IfOk result (λ run. run ≡ (device.now, first_state device.now)) }
    {
        let machine = Machine::reset(alloc, &device.image, device.ram.rules())?;
        Ok(Msp430Run { device, machine })
    }
}

impl<'a> Emulator for Msp430Run<'a> {
    type State = ChipState;

    type Cause = Wild;

    ghost runner = { λ run. msp430_runner run.0 };

    ghost state = { λ run. run.1 };

    fn pc(&self) -> u16 {
        self.machine.state.registers[0]
    }

    fn step(&mut self, choices: &mut Choices) -> Ran {
        match self.machine.step(&self.device.image, choices) {
            Stepped::Met(items) => Ran::Met(items),
            Stepped::Wild(_) => Ran::Wild,
            Stepped::NeedChoice => Ran::NeedChoice,
        }
    }
}
