//! The MCS-51 as it is disassembled and run.

ghost use Rattle.std.specs.Prelude.{◌≡◌, ◌%◌};
ghost use Rattle.mcs51_chip.specs.State.{first_state};
ghost use Rattle.vsa_top.specs.Mcs51.{mcs51_reads, mcs51_runner};

use choosing::Choices;
use disassembly::{Code, Line};
use image::Image;
use mcs51_chip::ChipState;
use mcs51_decode::{NoInstr, decode, encode, one_of_three};
use mcs51_emu::{Machine, Stepped};
use mcs51_text::text;
use run_trace::{Emulator, Ran};
use std::marker::Model;

/// The MCS-51's instructions stand at all addresses.
pub struct Mcs51Code;

impl Code for Mcs51Code {
    ghost unit = { 1 };

    ghost reads = { mcs51_reads };

    fn unit() -> u32 {
        1
    }

    fn line_at(image: &Image, at: u16) -> Option<Line> {
        match decode(image, at) {
            Ok((instr, _)) => Some(Line {
                bytes: encode(&instr),
                text: text(&instr, at),
            }),
            Err(_) => None,
        }
    }

    fn one_answer() {
        one_of_three();
    }
}

/// A chip that runs under an image.
#[derive(Drop)]
pub struct Mcs51Run<'a> {
    image: &'a Image,
    machine: Machine,
}

impl<'a> Model for Mcs51Run<'a> {
    ghost use Rattle.std.specs.Prelude.{ℕ, List, Option};
    ghost use Rattle.mcs51_chip.specs.declared.state.ChipState.{ChipState};

    ghost Value = { List (Option ℕ) × ChipState };

    ghost view = { λ run. (run.image.now, run.machine.state) };
}

impl<'a> Mcs51Run<'a> {
    /// The chip after a reset that leaves 0 in RAM.
    pub fn reset(image: &'a Image) -> Mcs51Run<'a>
        ensures { result ≡ (image.now, first_state) }
    {
        Mcs51Run {
            image,
            machine: Machine::reset(),
        }
    }
}

impl<'a> Emulator for Mcs51Run<'a> {
    type State = ChipState;

    type Cause = NoInstr;

    ghost runner = { λ run. mcs51_runner run.0 };

    ghost state = { λ run. run.1 };

    fn pc(&self) -> u16 {
        self.machine.state.pc
    }

    fn step(&mut self, choices: &mut Choices) -> Ran {
        match self.machine.step(self.image, choices) {
            Stepped::Met(items) => Ran::Met(items),
            Stepped::Wild(_) => Ran::Wild,
            Stepped::NeedChoice => Ran::NeedChoice,
        }
    }
}
