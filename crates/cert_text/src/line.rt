//! The lines of a certificate.

ghost use Rattle.std.specs.Prelude.{◌≡◌, ◌≤◌, ◌&&◌, Ok, length, IfOk, IfErr, IfSome, OnOk, OnErr};
ghost use Rattle.std.specs.Ordering.{is_lt};
ghost use Rattle.text_fields.specs.Fields as fields;
ghost use Rattle.node_fields.specs.Nodes.{node_field};
ghost use Rattle.cert_pages.specs.Pages.{filled};
ghost use Rattle.cert_text.specs.Certificate as certificates;
ghost use Rattle.cert_text.specs.Certificate.{at_first, is_empty, node_text, page_or_row, placed, placed_filled, table_row, table_step};
ghost use Rattle.cert_text.specs.declared.fault.ReadError.TheVariants as errors;
ghost use Rattle.cert_text.specs.Reading.{TellsLine};

use crate::fault::{LineFault, ReadError};
use call_context::Node;
use cert_pages::{Pages, fill, is_page, name};
use no_memory::Memory;
use node_fields::{push_node, split_row};
use state_text::StateText;
use std::alloc::Global;
use std::marker::Model;
use text_fields::behind;

/// What the lines so far have given: the nodes with their states, and the last node as it is written.
#[derive(Drop)]
pub struct Progress<A> {
    /// That of the head, 0 before it is read.
    version: u8,
    ended: bool,
    rows: Vec<(Node, A)>,
    last: Vec<u8>,
    pages: Pages,
    used: usize,
}

impl<A> Model for Progress<A> {
    ghost use Rattle.call_context.specs.declared.node.Node.{Node as ANode};
    ghost use Rattle.cert_text.specs.Certificate.{Read};

    ghost Value = { Read (ANode × A) };

    ghost view = { λ p. record {
      version = p.version;
      ended = p.ended;
      rows = p.rows.items;
      last = p.last.items;
      pages = p.pages;
      used = p.used;
    } };
}

impl<A> Progress<A> {
    /// No line yet.
    pub fn new(alloc: Global) -> Progress<A>
        ensures { result ≡ at_first }
    {
        Progress {
            version: 0,
            ended: false,
            rows: Vec::new(alloc),
            last: Vec::new(alloc),
            pages: Pages::new(alloc),
            used: 0,
        }
    }

    /// Whether the last line was read, and nothing stands behind it.
    pub fn is_complete(&self, rest: &[u8]) -> bool
        ensures { result ≡ (self.now.ended && is_empty rest.now) }
    {
        match rest {
            [] => self.ended,
            _ => false,
        }
    }

    /// How many pages there are.
    pub fn count_pages(&self) -> usize
        ensures { result ≡ length self.now.pages }
    {
        self.pages.len()
    }

    /// The nodes with their states.
    pub fn into_rows(self) -> Vec<(Node, A)>
        ensures { result.items ≡ self.rows }
    {
        let Progress { rows, .. } = self;
        rows
    }
}

/// Whether the first text stands before the second one in the order of bytes.
fn is_below(first: &[u8], second: &[u8]) -> bool
    ensures { result ≡ certificates.is_below first.now second.now }
{
    first.cmp(second).is_lt()
}

/// A node as it is written.
pub fn text_of_node<C: StateText>(alloc: Global, chip: &C, node: &Node) -> Result<Vec<u8>, Memory>
    ensures { (let texts = C.texts (C.base chip.now) in
        IfOk result (λ text. text.items ≡ (node_field texts.digits).text node.now)) }
{
    let mut text = Vec::new(alloc);
    push_node(&mut text, node, chip.sp_digits())?;
    Ok(text)
}

/// The node and the state of a line.
fn read_row<C: StateText>(
    alloc: Global,
    chip: &C,
    line: &[u8],
) -> Result<Option<(Node, C::Abs)>, Memory>
    ensures { (let b = C.base chip.now in
        IfOk result (λ found. found ≡ (table_row (C.analysis b) (C.texts b)).value line.now)) }
{
    let Some((node, text)) = split_row(line, chip.sp_digits()) else {
        return Ok(None);
    };
    match chip.read_abs(alloc, &node, text)? {
        Some(state) => Ok(Some((node, state))),
        None => Ok(None),
    }
}

/// What is wrong with a line.
fn fault_of(line: u32, fault: LineFault) -> ReadError
    ensures { result ≡ errors.Bad line fault }
{
    ReadError::Bad { line, fault }
}

/// Takes the head.
fn begin<A>(progress: &mut Progress<A>, line: &[u8], number: u32) -> Result<(), ReadError>
    ensures ok { OnOk result (certificates.begin progress.old line.now ≡ Ok progress.new) }
    ensures bad { IfErr result (TellsLine (certificates.begin progress.old line.now) number) }
    ensures stays { OnErr result (progress.new ≡ progress.old) }
{
    if line == b"CERT 2".as_slice() {
        progress.version = 2;
        return Ok(());
    }
    if line == b"CERT 1".as_slice() {
        progress.version = 1;
        return Ok(());
    }
    Err(fault_of(number, LineFault::Syntax))
}

/// Takes the end.
fn end<A>(progress: &mut Progress<A>, number: u32) -> Result<(), ReadError>
    ensures ok { OnOk result (certificates.end_of progress.old ≡ Ok progress.new) }
    ensures bad { IfErr result (TellsLine (certificates.end_of progress.old) number) }
    ensures stays { OnErr result (progress.new ≡ progress.old) }
{
    if progress.used != progress.pages.len() {
        return Err(fault_of(number, LineFault::Order));
    }
    progress.ended = true;
    Ok(())
}

/// Whether there is no row.
fn is_without_rows<A>(progress: &Progress<A>) -> bool
    ensures { result ≡ certificates.no_rows progress.now.rows }
{
    match progress.rows.as_slice() {
        [] => true,
        _ => false,
    }
}

/// A copy of a text.
fn copied(alloc: Global, text: &[u8]) -> Result<Vec<u8>, Memory>
    ensures { IfOk result (λ copy. copy.items ≡ text.now) }
{
    let mut copy = Vec::new(alloc);
    copy.extend_from_slice(text)?;
    Ok(copy)
}

/// Takes the cells of a page.
fn accept_page<A>(
    alloc: Global,
    progress: &mut Progress<A>,
    cells: &[u8],
    digits: u8,
    number: u32,
) -> Result<(), ReadError>
    requires { digits ≤ 4 }
    ensures ok { OnOk result (certificates.paged digits progress.old cells.now ≡ Ok progress.new) }
    ensures bad { IfErr result (TellsLine (certificates.paged digits progress.old cells.now) number) }
    ensures stays { OnErr result (progress.new ≡ progress.old) }
{
    if !is_page(cells, digits) {
        return Err(fault_of(number, LineFault::Syntax));
    }
    if !is_without_rows(progress) || progress.pages.has(cells) {
        return Err(fault_of(number, LineFault::Order));
    }
    progress.pages.push(alloc, copied(alloc, cells)?)?;
    Ok(())
}

/// Whether a row may stand behind another one.
fn may_follow(in_turn: bool, last: &[u8], text: &[u8]) -> bool
    ensures { result ≡ (in_turn && certificates.is_below last.now text.now) }
{
    in_turn && is_below(last, text)
}

/// Takes the line of a node, with its cells, with which so many pages have been used.
fn accept_row<C: StateText>(
    alloc: Global,
    chip: &C,
    progress: &mut Progress<C::Abs>,
    line: &[u8],
    used: usize,
    in_turn: bool,
    number: u32,
) -> Result<(), ReadError>
    ensures ok { (let b = C.base chip.now in let row = table_row (C.analysis b) (C.texts b) in
        OnOk result (placed row (node_text (C.texts b)) progress.old used in_turn (row.value line.now) ≡ Ok progress.new)) }
    ensures bad { (let b = C.base chip.now in let row = table_row (C.analysis b) (C.texts b) in
        IfErr result (TellsLine (placed row (node_text (C.texts b)) progress.old used in_turn (row.value line.now)) number)) }
    ensures stays { OnErr result (progress.new ≡ progress.old) }
{
    let Some((node, state)) = read_row(alloc, chip, line)? else {
        return Err(fault_of(number, LineFault::Syntax));
    };
    let text = text_of_node(alloc, chip, &node)?;
    if !may_follow(in_turn, &progress.last, &text) {
        return Err(fault_of(number, LineFault::Order));
    }
    progress.rows.push((node, state))?;
    progress.last = text;
    progress.used = used;
    Ok(())
}

/// Takes the line of a node, with pages.
fn accept_filled<C: StateText>(
    alloc: Global,
    chip: &C,
    progress: &mut Progress<C::Abs>,
    line: &[u8],
    number: u32,
) -> Result<(), ReadError>
    ensures ok { (let b = C.base chip.now in let texts = C.texts b in let row = table_row (C.analysis b) texts in
        OnOk result (placed_filled row (node_text texts) progress.old
        (filled texts.digits progress.old.pages progress.old.used line.now) ≡ Ok progress.new)) }
    ensures bad { (let b = C.base chip.now in let texts = C.texts b in let row = table_row (C.analysis b) texts in
        IfErr result (TellsLine (placed_filled row (node_text texts) progress.old
        (filled texts.digits progress.old.pages progress.old.used line.now)) number)) }
    ensures stays { OnErr result (progress.new ≡ progress.old) }
{
    let digits = chip.sp_digits();
    let Some(found) = fill(alloc, &progress.pages, line, progress.used, digits)? else {
        return Err(fault_of(number, LineFault::Syntax));
    };
    accept_row(
        alloc,
        chip,
        progress,
        &found.text,
        found.used,
        found.in_turn,
        number,
    )
}

/// What stands in front of the cells of a page.
fn page_front(alloc: Global, number: usize) -> Result<Vec<u8>, Memory>
    ensures { IfOk result (λ front. front.items ≡ certificates.page_front number) }
{
    let name = name(alloc, number)?;
    let mut front = Vec::new(alloc);
    front.extend_from_slice(b"P ")?;
    front.extend_from_slice(&name)?;
    front.push(b' ')?;
    Ok(front)
}

/// Takes the line of a page or of a node, with pages.
fn accept_paged<C: StateText>(
    alloc: Global,
    chip: &C,
    progress: &mut Progress<C::Abs>,
    line: &[u8],
    number: u32,
) -> Result<(), ReadError>
    ensures ok { (let b = C.base chip.now in let texts = C.texts b in let row = table_row (C.analysis b) texts in
        OnOk result (page_or_row row (node_text texts) texts.digits progress.old line.now
        (fields.behind (certificates.page_front (length progress.old.pages)) line.now) ≡ Ok progress.new)) }
    ensures bad { (let b = C.base chip.now in let texts = C.texts b in let row = table_row (C.analysis b) texts in
        IfErr result (TellsLine (page_or_row row (node_text texts) texts.digits progress.old line.now
        (fields.behind (certificates.page_front (length progress.old.pages)) line.now)) number)) }
    ensures stays { OnErr result (progress.new ≡ progress.old) }
{
    let front = page_front(alloc, progress.pages.len())?;
    match behind(&front, line) {
        Some(cells) => accept_page(alloc, progress, cells, chip.sp_digits(), number),
        None => accept_filled(alloc, chip, progress, line, number),
    }
}

/// Takes the next line, which has this number. An error leaves all as it was.
#[tactic(auto, unfolding(crate::specs::Certificate::table_step))]
pub fn accept<C: StateText>(
    alloc: Global,
    chip: &C,
    progress: &mut Progress<C::Abs>,
    line: &[u8],
    number: u32,
) -> Result<(), ReadError>
    ensures ok { (let b = C.base chip.now in
        OnOk result (table_step (C.analysis b) (C.texts b) progress.old line.now ≡ Ok progress.new)) }
    ensures bad { (let b = C.base chip.now in
        IfErr result (TellsLine (table_step (C.analysis b) (C.texts b) progress.old line.now) number)) }
    ensures stays { OnErr result (progress.new ≡ progress.old) }
{
    if progress.ended {
        return Err(fault_of(number, LineFault::Syntax));
    }
    if progress.version == 0 {
        return begin(progress, line, number);
    }
    if line == b"END".as_slice() {
        return end(progress, number);
    }
    if progress.version == 1 {
        let used = progress.used;
        return accept_row(alloc, chip, progress, line, used, true, number);
    }
    accept_paged(alloc, chip, progress, line, number)
}
