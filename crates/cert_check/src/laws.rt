//! Laws of certificates that are checked, as functions that do nothing.

ghost use Rattle.std.specs.Prelude.{◌≡◌, ◌↔◌, ℕ, List, None};
ghost use Rattle.call_context.specs.declared.node.Node.{Node as ANode};
ghost use Rattle.chip_analysis.specs.Table.{IsClosedTable};
ghost use Rattle.closed_book.specs.ClosedBook.{IsClosedBook, table_in};
ghost use Rattle.cert_text.specs.Writing.{AreNodes, IsCert};
ghost use Rattle.cert_check.specs.Accepted.{GivesReport, IsAccepted};
ghost use Rattle.cert_check.specs.Known.{Known};
ghost use Rattle.cert_check.specs.Refusal.{refusal_of, works_in};
ghost use Rattle.book_rules.specs.Kept.{nodes_of};
ghost use Rattle.book_rules.specs.Machine.{replay, IsClosed, IsLegalJournal};
ghost use Rattle.book_rules.specs.declared.event.Event.{Event};

use book_rules::tests_tell_which_are_one;
use cert_text::certificates_are_tables;
use closed_book::{closed_book_is_its_table, tables_have_no_order};
use report_bytes::closed_reports_are_of_tables;
use state_text::LawfulText;

/// What the laws of the chip and of its texts tell of a table that is checked.
pub fn tables_are_known<C: LawfulText>()
    ensures { (b : C.Base) → C.program b → (rows : List (ANode × C.Abs)) → AreNodes (C.analysis b) rows
        → Known (C.analysis b) (C.texts b) rows }
{
    C::order_laws();
    C::texts_are_exact();
    tests_tell_which_are_one();
}

/// There is no refusal exactly where the table is closed.
pub fn refusals_are_exact<C: LawfulText>()
    ensures { (b : C.Base) → C.program b → (let a = C.analysis b in
        (rows : List (ANode × C.Abs)) (first : ℕ) → AreNodes a rows
        → (refusal_of a (C.texts b).outside rows first ≡ None) ↔ IsClosedTable a (table_in rows)) }
{
    tables_are_known::<C>();
}

/// The works that the checker finds of a table without a refusal are those of a closed book.
pub fn unrefused_tables_are_closed_books<C: LawfulText>()
    ensures { (b : C.Base) → C.program b → (let a = C.analysis b in
        (rows : List (ANode × C.Abs)) (first : ℕ) → AreNodes a rows
        → refusal_of a (C.texts b).outside rows first ≡ None → IsClosedBook a rows (works_in a rows)) }
{
    tables_are_known::<C>();
}

/// The certificate of a closed table is accepted, in whatever order the nodes were written.
pub fn certificates_of_closed_tables_pass<C: LawfulText>()
    ensures { (b : C.Base) → C.program b → (let a = C.analysis b in let texts = C.texts b in
        (nodes : List (ANode × C.Abs)) (text : List ℕ) → AreNodes a nodes
        → IsClosedTable a (table_in nodes) → IsCert a texts nodes text
        → IsAccepted a texts nodes text) }
{
    certificates_are_tables::<C>();
    refusals_are_exact::<C>();
    tables_have_no_order::<C>();
    tests_tell_which_are_one();
}

/// The certificate of a finished book without opens is accepted, and gives the report of the book.
pub fn own_certificates_give_the_report<C: LawfulText>()
    ensures { (b : C.Base) → C.program b → (let a = C.analysis b in let texts = C.texts b in
        (journal : List Event) (text : List ℕ) → IsLegalJournal a journal
        → IsClosed (replay a journal) → IsCert a texts (nodes_of (replay a journal)) text
        → GivesReport a texts journal text) }
{
    certificates_of_closed_tables_pass::<C>();
    unrefused_tables_are_closed_books::<C>();
    closed_book_is_its_table::<C>();
    closed_reports_are_of_tables::<C>();
    tests_tell_which_are_one();
}
