//! The machine's state.

ghost use Rattle.msp430_chip.specs.Memory.{HasRam};
ghost use Rattle.msp430_chip.specs.State.{IsChipState};
ghost use Rattle.msp430_emu.specs.Ranges.{HasRam-prop, range};

use image::RamRange;
use msp430_chip::ChipState;

/// A state of an MSP430 that runs on, and where its RAM stands.
#[derive(Drop)]
pub struct Machine {
    pub ram: RamRange,
    pub state: ChipState,
    ghost form: { IsChipState (range ram) state },
    ghost placed: { HasRam (range ram) } by { HasRam-prop (range ram) },
}
