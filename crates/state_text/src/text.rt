//! The traits of a chip whose states have a text.

ghost use Rattle.std.specs.Prelude.{◌≡◌, ◌≤◌, ◌++◌, IfOk, OnOk};
ghost use Rattle.state_text.specs.Texts.{AreTexts, StateTexts};

use call_context::Node;
use chip_analysis::{Chip, OrderlyChip};
use no_memory::Memory;
use node_fields::Outside;
use std::alloc::Global;

/// A chip whose states have a text: some fields with a space between each two.
pub trait StateText: Chip {
    /// The texts of the states of a program.
    ghost texts: { Self.Base → StateTexts Self.Abs };

    /// How many digits a stack pointer is written with.
    fn sp_digits(&self) -> u8
        ensures digits { result ≡ (texts (Self.base self.now)).digits }
        ensures few { result ≤ 4 };

    /// Adds the text of a state. Where memory is refused a front of it may stand there.
    fn print_abs(&self, a: &Self::Abs, out: &mut Vec<u8>) -> Result<(), Memory>
        ensures { OnOk result (out.new.items
            ≡ out.old.items ++ (texts (Self.base self.now)).text_of a.now) };

    /// The state of a node that a text is, if it is one.
    fn read_abs(&self, alloc: Global, node: &Node, text: &[u8]) -> Result<Option<Self::Abs>, Memory>
        ensures { IfOk result (λ found. found
            ≡ (texts (Self.base self.now)).state_of node.now text.now) };

    /// The first field of a new state that isn't within that of the held one, in the order of the text.
    fn first_outside(
        &self,
        alloc: Global,
        new: &Self::Abs,
        held: &Self::Abs,
    ) -> Result<Option<Outside>, Memory>
        ensures { IfOk result (λ found. found
            ≡ (texts (Self.base self.now)).outside new.now held.now) };
}

/// A chip whose texts are proved to be exact, for generic code to use.
pub trait LawfulText: OrderlyChip + StateText {
    /// Each state in form is read again, and nothing else is.
    fn texts_are_exact()
        ensures { (b : Self.Base) → Self.program b → AreTexts (Self.analysis b) (Self.texts b) };
}
