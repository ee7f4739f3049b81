//! What is answered to assertions over a closed report.

ghost use Rattle.std.specs.Prelude.{◌≡◌, ◌≢◌, ◌≤◌, ◌++◌, ℕ, flat_map, IfOk, IfErr, IfSome, OnOk};
ghost use Rattle.std.specs.Map.{values_of};
ghost use Rattle.assert_check.specs.Assertions.{broken_of};
ghost use Rattle.item_lines.specs.Line.{item_line_of};
ghost use Rattle.vsa_top.specs.Answer.{IsAnalysis, IsAsserted, IsDecided};
ghost use Rattle.vsa_top.specs.Asserted.{AreAsserted, LacksAssertions, broken_text, fails_line, spaces_of, status_of_broken};
ghost use Rattle.vsa_top.specs.Faults.{TellsFaults};
ghost use Rattle.vsa_top.specs.Input.{begun_with};

use crate::outcome::Status;
use crate::reply::{NoReply, Reply, book_of, no_line, text_reply};
use crate::script::ScriptRefusal;
use crate::second::assertions_in;
use assert_check::{Assertion, Broken, decide};
use chip_law::LawfulChip;
use chip_numbers::Space;
use closed_book::{ClosedBook, books_are_bounded, read_closed_with_journal};
use dense_text::Text;
use item_lines::{InstrText, put_item};
use no_memory::Memory;
use report_bytes::{closed_books_are_told, report_of};
use round_core::{Book, Event};
use std::alloc::Global;
use std::sync::Wait;
use std::thread::Threads;
use streams::Source;
use vsa_words::{Target, Task};
use worker_rounds::Gate;

/// Adds the line of an assertion that is broken.
fn push_broken<C: InstrText>(chip: &C, text: &mut Vec<u8>, broken: &Broken) -> Result<(), Memory>
    ensures { OnOk result (text.new.items ≡ text.old.items ++ fails_line (item_line_of (C.text_of chip.now)) broken.now) }
{
    let number = broken.line.to_string(*text.allocator())?;
    text.extend_from_slice(b"FAILS ")?;
    text.extend_from_slice(number.as_str().as_bytes())?;
    text.push(b' ')?;
    put_item(chip, &broken.item, text)?;
    text.push(b'\n')?;
    Ok(())
}

/// The lines of assertions that are broken.
fn push_all<C: InstrText>(chip: &C, text: &mut Vec<u8>, broken: &[Broken]) -> Result<(), Memory>
    ensures { OnOk result (text.new.items ≡ text.old.items ++ flat_map (fails_line (item_line_of (C.text_of chip.now))) broken.now) }
{
    for one in broken {
        push_broken(chip, text, one)?;
    }
    Ok(())
}

/// A status and a text that tell what is broken.
fn told<C: InstrText>(
    alloc: Global,
    chip: &C,
    broken: &[Broken],
) -> Result<(Status, Vec<u8>), Memory>
    ensures status { IfOk result (λ told. told.0 ≡ status_of_broken broken.now) }
    ensures text { IfOk result (λ told. told.1.items ≡ broken_text (item_line_of (C.text_of chip.now)) broken.now) }
{
    let mut text = Vec::new(alloc);
    if broken.is_empty() {
        text.extend_from_slice(b"HOLDS\n")?;
        return Ok((Status::Done, text));
    }
    push_all(chip, &mut text, broken)?;
    Ok((Status::Broken, text))
}

/// What a closed book breaks, with its journal.
fn decision<C: LawfulChip + InstrText>(
    alloc: Global,
    chip: &C,
    book: &ClosedBook<C>,
    journal: Vec<Event>,
    list: &[(u32, Assertion)],
) -> Result<Reply, Memory>
    ensures status { IfOk result (λ reply. reply.status ≡ status_of_broken (broken_of (item_line_of (C.text_of chip.now)) list.now
        (flat_map (λ work. work.items) (values_of book.now.works)))) }
    ensures text { IfOk result (λ reply. reply.text ≡ broken_text (item_line_of (C.text_of chip.now))
        (broken_of (item_line_of (C.text_of chip.now)) list.now (flat_map (λ work. work.items) (values_of book.now.works)))) }
    ensures journal { IfOk result (λ reply. reply.journal.items ≡ journal.items) }
{
    let broken = decide(alloc, chip, book, list)?;
    let (status, text) = told(alloc, chip, broken.as_slice())?;
    Ok(Reply {
        status,
        text: Text::from_bytes(text),
        journal,
    })
}

/// What a book breaks, where it is closed, or its report.
fn decided<C: LawfulChip + InstrText>(
    alloc: Global,
    chip: &C,
    book: Book<C>,
    list: &[(u32, Assertion)],
) -> Result<Reply, Memory>
    requires base { book.base ≡ C.base chip.now }
    requires program { C.program book.base }
    ensures { IfOk result (λ reply. (workers : ℕ) → IsAnalysis (C.analysis (C.base chip.now)) workers book.journal
        → IsDecided (C.text_of chip.now) (C.analysis (C.base chip.now)) workers list.now reply.status reply.text reply.journal.items) }
{
    closed_books_are_told::<C>();
    books_are_bounded::<C>();
    match read_closed_with_journal(book) {
        Ok((closed, journal)) => decision(alloc, chip, &closed, journal, list),
        Err(book) => {
            let report = report_of(alloc, chip, &book)?;
            let (_, _, journal) = book.into_parts();
            Ok(Reply {
                status: Status::Open,
                text: Text::from_bytes(report.text),
                journal,
            })
        }
    }
}

/// What a program breaks that so many workers analyse, or its report.
fn chip_decision<
    R: Threads + Wait + Sync,
    C: LawfulChip<Base: Send> + InstrText + Send + Sync,
    G: Gate + Sync,
>(
    rt: &R,
    alloc: Global,
    chip: &C,
    workers: u32,
    list: &[(u32, Assertion)],
    gate: &G,
) -> Result<Reply, Memory>
    requires some { 1 ≤ workers }
    requires few { workers ≤ 16 }
    ensures { IfOk result (λ reply.
        IsDecided (C.text_of chip.now) (C.analysis (C.base chip.now)) workers list.now reply.status reply.text reply.journal.items) }
{
    chip.is_program();
    let book = book_of(rt, alloc, chip, workers, gate)?;
    decided(alloc, chip, book, list)
}

/// The assertions on a chip that stand in a source's text behind the bytes that were read of it.
fn assertions_on<S: Source>(
    alloc: Global,
    target: Target,
    source: &mut S,
    begun: &[u8],
) -> Result<Vec<(u32, Assertion)>, ScriptRefusal>
    ensures list { IfOk result (λ list. IfSome (begun_with begun.now (S.left source.old))
        (λ text. AreAsserted (spaces_of target) text list.items)) }
    ensures refused { IfErr result (λ error. IfSome (begun_with begun.now (S.left source.old))
        (λ text. LacksAssertions (spaces_of target) text error)) }
    ensures faults { TellsFaults ScriptRefusal.Failed (S.faults source.old) (S.faults source.new) result }
{
    match target {
        Target::Msp430 { .. } => assertions_in(alloc, source, begun, &[Space::Mem]),
        Target::Mcs51 => assertions_in(
            alloc,
            source,
            begun,
            &[Space::Ram, Space::Sfr, Space::Xram, Space::Code],
        ),
    }
}

/// What is answered to the assertions on a program that stand behind an image text, of which so much was read.
pub fn assertion_reply<
    R: Threads + Wait + Sync,
    S: Source,
    C: LawfulChip<Base: Send> + InstrText + Send + Sync,
    G: Gate + Sync,
>(
    rt: &R,
    alloc: Global,
    chip: &C,
    task: Task,
    begun: &[u8],
    source: &mut S,
    gate: &G,
) -> Result<Reply, NoReply>
    requires some { 1 ≤ task.workers }
    requires few { task.workers ≤ 16 }
    ensures reply { (let b = C.base chip.now in IfOk result (λ reply. IsAsserted (C.text_of chip.now) (C.analysis b) task
        (begun_with begun.now (S.left source.old)) reply.status reply.text reply.journal.items)) }
    ensures faults { TellsFaults NoReply.ReadFault (S.faults source.old) (S.faults source.new) result }
{
    match assertions_on(alloc, task.target, source, begun) {
        Ok(list) => Ok(chip_decision(rt, alloc, chip, task.workers, list.as_slice(), gate)?),
        Err(ScriptRefusal::Syntax { line }) => {
            let text = no_line(alloc, line)?;
            Ok(text_reply(alloc, Status::BadCert, text))
        }
        Err(ScriptRefusal::TooLong) => {
            let text = Vec::from_slice(alloc, b"LONG\n")?;
            Ok(text_reply(alloc, Status::TooLong, text))
        }
        Err(ScriptRefusal::Failed) => Err(NoReply::ReadFault),
        Err(ScriptRefusal::Memory) => Err(NoReply::Memory),
    }
}
