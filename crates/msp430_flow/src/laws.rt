//! The laws of the chip.

ghost use Rattle.msp430_flow.specs.Chip.{IsSetting};
ghost use Rattle.msp430_flow.specs.LawsBelow.{Laws};
ghost use Rattle.msp430_flow.specs.Machine.{machine_if, msp430_machine};
ghost use Rattle.msp430_state.specs.Holding.{Covers};

use crate::chip::Msp430Chip;
use crate::kept::Kept;
use chip_analysis::OrderlyChip;
use chip_law::{LawfulChip, RunningChip};
use irq_frames::known_laws;
use msp430_alu::{doubles_hold, pushes_hold, singles_hold};
use msp430_branch::{cuts_hold, facts_hold};
use msp430_chip::{ChipState, Device, step_laws};
use msp430_decode::decoding_laws;
use msp430_entry::interrupt_laws;
use msp430_kept::front_laws;
use msp430_resume::resumption_laws;
use msp430_return::return_laws;
use msp430_state::state_laws;
use msp430_status::{single_statuses_hold, statuses_hold};
use unit_ways::ways_hold;

/// What the laws of the chip rest on.
fn laws_below()
    ensures { Laws }
{
    known_laws();
    ways_hold::<Kept>();
    doubles_hold();
    singles_hold();
    pushes_hold();
    statuses_hold();
    single_statuses_hold();
    interrupt_laws();
    return_laws();
    resumption_laws();
    cuts_hold();
    facts_hold();
    front_laws();
    step_laws();
    decoding_laws();
    state_laws();
}

impl OrderlyChip for Msp430Chip {
    ghost use Rattle.msp430_flow.specs.Chip.{AreAlike};

    ghost program = { IsSetting };

    ghost alike = { AreAlike };

    fn is_program(&self) {
        self.keeps_rules();
    }

    fn order_laws() {
        laws_below();
    }

    fn alike_laws() {}
}

impl LawfulChip for Msp430Chip {
    type State = ChipState;

    ghost machine = { machine_if };

    ghost covers = { λ setting. Covers setting.device };

    fn laws() {
        laws_below();
    }
}

impl RunningChip for Msp430Chip {
    type Program = Device;

    type State = ChipState;

    ghost machine = { msp430_machine };
}
