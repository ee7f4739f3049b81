//! The writer of certificates.

ghost use Rattle.std.specs.Prelude.{◌≡◌, ◌++◌, ◌∷◌, map, List, ℕ, IsPermutation, IfOk, IfErr, OnOk};
ghost use Rattle.std.specs.Cmp.Lexicographic.{slice_cmp};
ghost use Rattle.std.specs.List.{flat_map};
ghost use Rattle.std.specs.List.Sorted.{IsSortedByKey};
ghost use Rattle.std.specs.Ordering.{nat_cmp};
ghost use Rattle.book_rules.specs.Kept.{nodes_of};
ghost use Rattle.book_rules.specs.Machine.{replay};
ghost use Rattle.streams.specs.Stream.{AppendsPrefix, HasRisen, appended};
ghost use Rattle.cert_text.specs.Writing as writing;
ghost use Rattle.cert_text.specs.Writing.{AreNodes, IsCert, bytes_of, line_of};

use crate::laws::nodes_of_books_are_formed;
use crate::line::text_of_node;
use book_rules::tests_tell_which_are_one;
use call_context::Node;
use no_memory::Memory;
use round_core::Book;
use state_text::LawfulText;
use std::alloc::{AllocError, Global};
use streams::{PrintError, Sink, write_all};

/// A node and its state as they are written.
fn written<C: LawfulText>(
    alloc: Global,
    chip: &C,
    row: &(Node, C::Abs),
) -> Result<(Vec<u8>, Vec<u8>), Memory>
    ensures { IfOk result (λ pair. bytes_of pair ≡ writing.written (C.texts (C.base chip.now)) row.now) }
{
    let (node, state) = row;
    let node_text = text_of_node(alloc, chip, node)?;
    let mut state_text = Vec::new(alloc);
    chip.print_abs(state, &mut state_text)?;
    Ok((node_text, state_text))
}

/// Nodes and their states as they are written.
fn all_written<C: LawfulText>(
    alloc: Global,
    chip: &C,
    nodes: &[(Node, C::Abs)],
) -> Result<Vec<(Vec<u8>, Vec<u8>)>, Memory>
    ensures { IfOk result (λ pairs. map bytes_of pairs.items
        ≡ map (writing.written (C.texts (C.base chip.now))) nodes.now) }
{
    let mut pairs = Vec::new(alloc);
    for row in nodes {
        pairs.push(written(alloc, chip, row)?)?;
    }
    Ok(pairs)
}

/// Adds the line of each.
fn push_lines(text: &mut Vec<u8>, pairs: &[(Vec<u8>, Vec<u8>)]) -> Result<(), AllocError>
    ensures { OnOk result (text.new.items ≡ text.old.items ++ flat_map line_of (map bytes_of pairs.now)) }
{
    for (node, state) in pairs {
        text.extend_from_slice(node)?;
        text.push(b' ')?;
        text.extend_from_slice(state)?;
        text.push(b'\n')?;
    }
    Ok(())
}

/// The certificate of nodes with their states, which come in any order.
pub fn certificate_of<C: LawfulText>(
    alloc: Global,
    chip: &C,
    nodes: &[(Node, C::Abs)],
) -> Result<Vec<u8>, Memory>
    requires { AreNodes (C.analysis (C.base chip.now)) nodes.now }
    ensures { (let b = C.base chip.now in
        IfOk result (λ text. IsCert (C.analysis b) (C.texts b) nodes.now text.items)) }
{
    chip.is_program();
    C::texts_are_exact();
    tests_tell_which_are_one();
    let mut pairs = all_written(alloc, chip, nodes)?;
    pairs.sort()?;
    let mut text = Vec::new(alloc);
    text.extend_from_slice(b"CERT 1\n")?;
    push_lines(&mut text, &pairs)?;
    text.extend_from_slice(b"END\n")?;
    Ok(text)
}

/// Writes the certificate of nodes with their states, which come in any order.
pub fn write_nodes<C: LawfulText, K: Sink>(
    alloc: Global,
    chip: &C,
    nodes: &[(Node, C::Abs)],
    sink: &mut K,
) -> Result<(), PrintError>
    requires { AreNodes (C.analysis (C.base chip.now)) nodes.now }
    ensures written { (let b = C.base chip.now in OnOk result ((text : List ℕ)
        × IsCert (C.analysis b) (C.texts b) nodes.now text
        × (K.held sink.new ≡ appended (K.held sink.old) text))) }
    ensures quiet { OnOk result (K.faults sink.new ≡ K.faults sink.old) }
    ensures prefix { (let b = C.base chip.now in
        IfErr result (λ error. error ≡ PrintError.Write → (text : List ℕ)
        × IsCert (C.analysis b) (C.texts b) nodes.now text
        × AppendsPrefix (K.held sink.old) text (K.held sink.new))) }
    ensures cause { IfErr result (λ error. error ≡ PrintError.Write
        → HasRisen (K.faults sink.old) (K.faults sink.new)) }
    ensures unwritten { IfErr result (λ error. error ≡ PrintError.Memory
        → K.held sink.new ≡ K.held sink.old) }
{
    let text = certificate_of(alloc, chip, nodes)?;
    match write_all(sink, text.as_slice()) {
        Ok(()) => Ok(()),
        Err(_) => Err(PrintError::Write),
    }
}

/// The nodes of a book, as its certificate lists them.
fn listed<'a, C: LawfulText>(chip: &C, book: &'a Book<C>) -> &'a [(Node, C::Abs)]
    requires { C.base chip.now ≡ book.now.base }
    ensures nodes { result.now ≡ nodes_of (replay (C.analysis book.now.base) book.now.journal) }
    ensures formed { AreNodes (C.analysis (C.base chip.now)) result.now }
{
    chip.is_program();
    nodes_of_books_are_formed::<C>();
    let _journal = book.journal();
    book.nodes()
}

/// The certificate of a book: that of its nodes.
pub fn book_certificate<C: LawfulText>(
    alloc: Global,
    chip: &C,
    book: &Book<C>,
) -> Result<Vec<u8>, Memory>
    requires { C.base chip.now ≡ book.now.base }
    ensures { (let b = book.now.base in IfOk result (λ text.
        IsCert (C.analysis b) (C.texts b) (nodes_of (replay (C.analysis b) book.now.journal)) text.items)) }
{
    certificate_of(alloc, chip, listed(chip, book))
}

/// Writes the certificate of a book: that of its nodes.
pub fn write<C: LawfulText, K: Sink>(
    alloc: Global,
    chip: &C,
    book: &Book<C>,
    sink: &mut K,
) -> Result<(), PrintError>
    requires { C.base chip.now ≡ book.now.base }
    ensures written { (let b = book.now.base in let nodes = nodes_of (replay (C.analysis b) book.now.journal) in
        OnOk result ((text : List ℕ) × IsCert (C.analysis b) (C.texts b) nodes text
        × (K.held sink.new ≡ appended (K.held sink.old) text))) }
    ensures quiet { OnOk result (K.faults sink.new ≡ K.faults sink.old) }
    ensures prefix { (let b = book.now.base in let nodes = nodes_of (replay (C.analysis b) book.now.journal) in
        IfErr result (λ error. error ≡ PrintError.Write → (text : List ℕ)
        × IsCert (C.analysis b) (C.texts b) nodes text
        × AppendsPrefix (K.held sink.old) text (K.held sink.new))) }
    ensures cause { IfErr result (λ error. error ≡ PrintError.Write
        → HasRisen (K.faults sink.old) (K.faults sink.new)) }
    ensures unwritten { IfErr result (λ error. error ≡ PrintError.Memory
        → K.held sink.new ≡ K.held sink.old) }
{
    write_nodes(alloc, chip, listed(chip, book), sink)
}
