//! The states of the chip as texts.

ghost use Rattle.mcs51_flow.specs.Texts.{mcs51_texts};

use crate::chip::Mcs51Chip;
use crate::kept::Kept;
use call_context::Node;
use mcs51_fields::{first_outside, push_state, read_state, states_have_texts};
use no_memory::Memory;
use state_text::{LawfulText, Outside, StateText};
use std::alloc::Global;

impl StateText for Mcs51Chip {
    ghost texts = { λ setting. mcs51_texts };

    fn sp_digits(&self) -> u8 {
        2
    }

    fn print_abs(&self, a: &Kept, out: &mut Vec<u8>) -> Result<(), Memory> {
        push_state(a.state(), out)?;
        Ok(())
    }

    fn read_abs(&self, alloc: Global, node: &Node, text: &[u8]) -> Result<Option<Kept>, Memory> {
        match read_state(alloc, node, text)? {
            Some(state) => Ok(Some(Kept::new(alloc, state)?)),
            None => Ok(None),
        }
    }

    fn first_outside(
        &self,
        alloc: Global,
        new: &Kept,
        held: &Kept,
    ) -> Result<Option<Outside>, Memory> {
        first_outside(alloc, new.state(), held.state())
    }
}

impl LawfulText for Mcs51Chip {
    fn texts_are_exact() {
        states_have_texts();
    }
}
