//! What holds of all instructions, and the laws of the chip.

ghost use Rattle.mcs51_state.specs.Holding.{Covers};
ghost use Rattle.mcs51_flow.specs.Chip.{IsSetting};
ghost use Rattle.mcs51_flow.specs.LawsBelow.{Laws};
ghost use Rattle.mcs51_flow.specs.Laws.{RunLaws};
ghost use Rattle.mcs51_flow.specs.Machine.{machine_if, mcs51_machine};

use crate::chip::Mcs51Chip;
use crate::kept::Kept;
use chip_analysis::OrderlyChip;
use chip_law::{LawfulChip, RunningChip};
use image::Image;
use irq_frames::known_laws;
use mcs51_alu::{accumulators_do, accumulators_hold};
use mcs51_chip::{ChipState, step_laws};
use mcs51_control::{return_laws, transfers_do};
use mcs51_decode::decoding_laws;
use mcs51_entry::interrupt_laws;
use mcs51_jumps::{bits_do, bits_keep_form, jumps_do, jumps_keep_form};
use mcs51_kept::front_laws;
use mcs51_memories::{memories_do, memories_keep_form};
use mcs51_moves::{moves_do, moves_keep_form};
use mcs51_resume::resumption_laws;
use mcs51_state::{operand_laws, state_laws, store_laws};
use unit_ways::ways_hold;

/// An instruction of the chip does what is said of it: its accesses are shown, and it goes on where this says, in a state that
/// stands under what is known there. The sets and states that are said are in form.
pub fn instructions_do()
    ensures { RunLaws }
{
    known_laws();
    operand_laws();
    store_laws();
    accumulators_do();
    accumulators_hold();
    transfers_do();
    return_laws();
    moves_do();
    moves_keep_form();
    memories_do();
    memories_keep_form();
    bits_do();
    bits_keep_form();
    jumps_do();
    jumps_keep_form();
}

/// What the laws of the chip rest on.
fn laws_below()
    ensures { Laws }
{
    known_laws();
    ways_hold::<Kept>();
    decoding_laws();
    step_laws();
    state_laws();
    interrupt_laws();
    return_laws();
    resumption_laws();
    front_laws();
    instructions_do();
}

impl OrderlyChip for Mcs51Chip {
    ghost use Rattle.mcs51_flow.specs.Chip.{AreAlike};

    ghost program = { IsSetting };

    ghost alike = { AreAlike };

    fn is_program(&self) {
        self.keeps_rules();
    }

    fn order_laws() {
        laws_below();
    }

    fn alike_laws() {}
}

impl LawfulChip for Mcs51Chip {
    type State = ChipState;

    ghost machine = { machine_if };

    ghost covers = { λ setting. Covers };

    fn laws() {
        laws_below();
    }
}

impl RunningChip for Mcs51Chip {
    type Program = Image;

    type State = ChipState;

    ghost machine = { mcs51_machine };
}
