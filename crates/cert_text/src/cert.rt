//! A certificate that was read.

ghost use Rattle.std.specs.Prelude.{◌≡◌, ◌+◌, ◌<◌, ◌^◌, length};
ghost use Rattle.cert_text.specs.Certificate.{AreRows};
ghost use Rattle.cert_text.specs.Writing.{AreNodes};

use book_rules::tests_tell_which_are_one;
use call_context::Node;
use state_text::LawfulText;
use std::marker::Model;
use std::snapshot::Snapshot;

/// The table of a certificate. Contracts see the chip's program with options, the line of the first row, and the rows.
#[derive(Drop)]
pub struct Cert<C: LawfulText> {
    /// Only clauses read it: a snapshot has no bytes.
    pub(crate) chip: Snapshot<C>,
    pub(crate) first: u32,
    pub(crate) rows: Vec<(Node, C::Abs)>,
}

impl<C: LawfulText> Model for Cert<C> {
    ghost use Rattle.cert_text.specs.Reading.{IsTable, Table};

    ghost Value = { Table C.Base C.Abs };

    ghost view = { λ c. record { base = C.base c.chip.value; first = c.first; rows = c.rows.items } };

    ghost invariant = { λ c. C.program (C.base c.chip.value)
        × IsTable (C.analysis (C.base c.chip.value)) (C.texts (C.base c.chip.value)) c.first c.rows.items };
}

impl<C: LawfulText> Cert<C> {
    /// The nodes with their states, in the order of the text.
    pub fn nodes(&self) -> &[(Node, C::Abs)]
        ensures nodes { result.now ≡ self.now.rows }
        ensures rows { AreRows (C.analysis self.now.base) (C.texts self.now.base) self.now.rows }
        ensures forms { AreNodes (C.analysis self.now.base) self.now.rows }
    {
        tests_tell_which_are_one();
        self.rows.as_slice()
    }

    /// The line of the first node, or of the end where there is none. Each further node stands on the next line.
    pub fn first(&self) -> u32
        ensures line { result ≡ self.now.first }
        ensures lines { self.now.first + length self.now.rows < 2 ^ 32 }
    {
        self.first
    }

    /// The nodes with their states, in the order of the text.
    pub fn into_nodes(self) -> Vec<(Node, C::Abs)>
        ensures { result.items ≡ self.rows }
    {
        let Cert { rows, .. } = self;
        rows
    }
}
