//! The states of the chip as texts.

ghost use Rattle.msp430_flow.specs.Texts.{msp430_texts};

use crate::chip::Msp430Chip;
use crate::kept::Kept;
use call_context::Node;
use msp430_fields::{first_outside, push_state, read_state, states_have_texts};
use no_memory::Memory;
use state_text::{LawfulText, Outside, StateText};
use std::alloc::Global;

impl StateText for Msp430Chip {
    ghost texts = { λ setting. msp430_texts setting.device };

    fn sp_digits(&self) -> u8 {
        4
    }

    fn print_abs(&self, a: &Kept, out: &mut Vec<u8>) -> Result<(), Memory> {
        push_state(a.state(), out)?;
        Ok(())
    }

    fn read_abs(&self, alloc: Global, node: &Node, text: &[u8]) -> Result<Option<Kept>, Memory> {
        let ram = self.ram();
        match read_state(alloc, ram.lo, ram.hi, node, text)? {
            Some(state) => Ok(Some(Kept::new(alloc, state)?)),
            None => Ok(None),
        }
    }

    fn first_outside(
        &self,
        alloc: Global,
        new: &Kept,
        held: &Kept,
    ) -> Result<Option<Outside>, Memory> {
        first_outside(alloc, new.state(), held.state())
    }
}

impl LawfulText for Msp430Chip {
    fn texts_are_exact() {
        states_have_texts();
    }
}
