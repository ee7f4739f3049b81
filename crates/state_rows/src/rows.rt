//! What lines say, and whether a row holds.

use crate::states::{KnownState, changed, push_outside_of, push_state_of};
use crate::values::push_value;
use abs_memory::CellList;
use call_context::{Calls, Frame, Node};
use no_memory::Memory;
use node_fields::{read_exit, read_location};
use row_parts::text_of;
use std::alloc::{AllocError, Global};

type Msp430 = msp430_state::State<CellList>;

type Mcs51 = mcs51_state::State<CellList>;

/// What the lines so far say of states.
#[derive(Drop)]
pub struct Rows {
    is_mcs51: bool,
    node: Node,
    first: String,
}

/// What stands in front of the first blank and behind it.
pub fn halves(line: &str) -> (&str, &str) {
    line.split_once(' ').unwrap_or((line, ""))
}

impl Rows {
    pub fn new(alloc: Global) -> Rows {
        Rows {
            is_mcs51: false,
            node: Node::At(0, Calls::new(), Frame::Base),
            first: String::new(alloc),
        }
    }

    /// Does what a line says, and tells whether it holds where it is a row.
    pub fn take(&mut self, alloc: Global, line: &str) -> Result<Option<bool>, AllocError> {
        let line = text_of(alloc, line)?;
        self.answer(alloc, line.as_str())
    }

    fn answer(&mut self, alloc: Global, line: &str) -> Result<Option<bool>, AllocError> {
        let (word, rest) = halves(line);
        match word {
            "" => Ok(None),
            "at" => Ok(self.go_to(rest)),
            "first" => {
                self.first = String::from_str(alloc, rest)?;
                Ok(None)
            }
            _ => match self.holds(alloc, line) {
                Ok(holds) => Ok(Some(holds)),
                Err(Memory) => Err(AllocError),
            },
        }
    }

    /// Goes to a node of a chip. One that is none doesn't hold.
    fn go_to(&mut self, place: &str) -> Option<bool> {
        let (chip, node) = halves(place);
        let node = node.as_bytes();
        match read_location(node, 4).or_else(|| read_exit(node, 4)) {
            Some(node) => {
                self.is_mcs51 = chip == "mcs51";
                self.node = node;
                None
            }
            None => Some(false),
        }
    }

    /// Whether a row holds.
    fn holds(&self, alloc: Global, line: &str) -> Result<bool, Memory> {
        let row = line.strip_prefix("no ");
        let (kind, rest) = halves(row.unwrap_or(line));
        let text = self.text_of(alloc, kind, rest)?;
        let is_read = self.is_read(alloc, kind, text.as_str(), row.is_some())?;
        Ok(is_read != row.is_some())
    }

    /// What a row of a kind has read: a field's value stands in the first state.
    fn text_of(&self, alloc: Global, kind: &str, rest: &str) -> Result<String, AllocError> {
        match rest.split_once('=') {
            Some((name, value)) if kind == "field" => {
                changed(alloc, self.first.as_str(), name, value)
            }
            _ => String::from_str(alloc, rest),
        }
    }

    /// Whether a text is read, as anything or as what it says.
    fn is_read(
        &self,
        alloc: Global,
        kind: &str,
        text: &str,
        as_anything: bool,
    ) -> Result<bool, Memory> {
        let (asked, wanted) = text.split_once(" > ").unwrap_or((text, text));
        let mut out = Vec::new(alloc);
        let is_read = self.push(alloc, &mut out, kind, asked)?;
        Ok(is_read && (as_anything || out.as_slice() == wanted.as_bytes()))
    }

    /// Adds what is read of a text of a kind, and tells whether there is something.
    fn push(
        &self,
        alloc: Global,
        out: &mut Vec<u8>,
        kind: &str,
        text: &str,
    ) -> Result<bool, Memory> {
        match kind {
            "field" | "state" | "outside" if self.is_mcs51 => {
                self.push_of::<Mcs51>(alloc, out, kind, text)
            }
            "field" | "state" | "outside" => self.push_of::<Msp430>(alloc, out, kind, text),
            _ => push_value(alloc, out, kind, text),
        }
    }

    /// The same of a state of a chip, or of two.
    fn push_of<S: KnownState>(
        &self,
        alloc: Global,
        out: &mut Vec<u8>,
        kind: &str,
        text: &str,
    ) -> Result<bool, Memory> {
        match kind {
            "outside" => { push_outside_of::<S>(alloc, out, &self.node, self.first.as_str(), text) }
            _ => push_state_of::<S>(alloc, out, &self.node, text),
        }
    }
}
