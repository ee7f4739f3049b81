//! What verdicts say, as functions that do nothing.

ghost use Rattle.std.specs.Prelude.{◌≡◌, ℕ, Bool, true, List, Ok};
ghost use Rattle.call_context.specs.declared.node.Node.{Node};
ghost use Rattle.chip_analysis.specs.Table.{IsClosedTable};
ghost use Rattle.closed_book.specs.ClosedBook.{table_in};
ghost use Rattle.book_rules.specs.Kept.{nodes_of};
ghost use Rattle.book_rules.specs.Machine.{replay, IsClosed, IsLegalJournal};
ghost use Rattle.book_rules.specs.declared.event.Event.{Event};
ghost use Rattle.report_bytes.specs.Report.{closed_report, report_of_journal};
ghost use Rattle.report_bytes.specs.Stacks.{HasOneStack};
ghost use Rattle.cert_text.specs.Certificate.{table_of};
ghost use Rattle.cert_text.specs.Writing.{IsCert};
ghost use Rattle.cert_check.specs.Refusal.{works_in};
ghost use Rattle.cert_verdict.specs.Verdict.{IsVerdict, TellsClosedBook};

use cert_check::{
    own_certificates_give_the_report, refusals_are_exact, unrefused_tables_are_closed_books,
};
use cert_text::tables_have_nodes;
use state_text::LawfulText;

/// The report that is told of a closed table is that of a closed book, whoever made the certificate.
pub fn closed_verdicts_tell_closed_books<C: LawfulText>()
    ensures { (base : C.Base) (text_of : ℕ → List ℕ → List ℕ) (text told : List ℕ)
        → IsVerdict text_of (C.analysis base) (C.texts base) text true told → TellsClosedBook text_of (C.analysis base) told }
{}

/// A text has one verdict.
pub fn verdicts_are_one<C: LawfulText>()
    ensures { (base : C.Base) (text_of : ℕ → List ℕ → List ℕ) (text : List ℕ) (one other : Bool) (told also : List ℕ)
        → IsVerdict text_of (C.analysis base) (C.texts base) text one told
        → IsVerdict text_of (C.analysis base) (C.texts base) text other also → (one ≡ other) × (told ≡ also) }
{}

/// A text that is the certificate of a closed table has the verdict that it is, with the report of the table's works.
pub fn closed_tables_have_their_report<C: LawfulText>()
    ensures { (base : C.Base) → C.program base → (let a = C.analysis base in let texts = C.texts base in
        (text_of : ℕ → List ℕ → List ℕ) (text : List ℕ) (rows : List (Node × C.Abs)) → table_of a texts text ≡ Ok rows
        → IsClosedTable a (table_in rows) → IsVerdict text_of a texts text true (closed_report text_of (works_in a rows))) }
{
    tables_have_nodes::<C>();
    refusals_are_exact::<C>();
    unrefused_tables_are_closed_books::<C>();
}

/// The certificate of a finished book without opens has the verdict that its table is closed, with the book's own report,
/// where the stacks of the chip grow one way.
pub fn own_certificates_are_closed<C: LawfulText>()
    ensures { (base : C.Base) → C.program base → (let a = C.analysis base in let texts = C.texts base in
        (text_of : ℕ → List ℕ → List ℕ) (journal : List Event) (text : List ℕ) → HasOneStack a
        → IsLegalJournal a journal → IsClosed (replay a journal) → IsCert a texts (nodes_of (replay a journal)) text
        → IsVerdict text_of a texts text true (report_of_journal text_of a journal)) }
{
    tables_have_nodes::<C>();
    own_certificates_give_the_report::<C>();
    unrefused_tables_are_closed_books::<C>();
}
