//! Laws of certificates, as functions that do nothing.

ghost use Rattle.std.specs.Prelude.{◌≡◌, ◌↔◌, ◌⊎◌, ℕ, List, Ok};
ghost use Rattle.call_context.specs.declared.node.Node.{Node as ANode};
ghost use Rattle.book_rules.specs.Kept.{nodes_of};
ghost use Rattle.book_rules.specs.Machine.{replay, IsLegalJournal};
ghost use Rattle.book_rules.specs.declared.event.Event.{Event};
ghost use Rattle.cert_text.specs.Certificate.{AreRows, cert1_of, cert_of, table_of};
ghost use Rattle.cert_text.specs.Writing.{AreNodes, IsCert};

use book_rules::{closed_book_has_closed_table, nodes_stay, tests_tell_which_are_one};
use chip_analysis::OrderlyChip;
use state_text::LawfulText;

/// A text denotes a table exactly where it is the certificate of the table in one of both versions. The nodes of the table are
/// in form and in order.
pub fn certificates_are_tables<C: LawfulText>()
    ensures { (b : C.Base) → C.program b → (let a = C.analysis b in let texts = C.texts b in
        (text : List ℕ) (rows : List (ANode × C.Abs))
        → (table_of a texts text ≡ Ok rows)
        ↔ (AreRows a texts rows × ((text ≡ cert_of a texts rows) ⊎ (text ≡ cert1_of a texts rows)))) }
{
    C::texts_are_exact();
}

/// No node of a book has two states, and each is in form with its own: so the book has a certificate, closed or open.
pub fn nodes_of_books_are_formed<C: OrderlyChip>()
    ensures { (b : C.Base) → C.program b → (let a = C.analysis b in
        (journal : List Event) → IsLegalJournal a journal
        → AreNodes a (nodes_of (replay a journal))) }
{
    C::order_laws();
    nodes_stay::<C>();
    closed_book_has_closed_table::<C>();
    tests_tell_which_are_one();
}

/// The nodes of a text that denotes a table are in form with their states, and no two of them are one.
pub fn tables_have_nodes<C: LawfulText>()
    ensures { (b : C.Base) (text : List ℕ) (rows : List (ANode × C.Abs)) → C.program b
        → table_of (C.analysis b) (C.texts b) text ≡ Ok rows → AreNodes (C.analysis b) rows }
{
    certificates_are_tables::<C>();
    tests_tell_which_are_one();
}

/// Nodes with their states have one certificate, in whatever order they come.
pub fn certificates_are_one<C: LawfulText>()
    ensures { (b : C.Base) (nodes : List (ANode × C.Abs)) (one other : List ℕ)
        → IsCert (C.analysis b) (C.texts b) nodes one → IsCert (C.analysis b) (C.texts b) nodes other → one ≡ other }
{}
