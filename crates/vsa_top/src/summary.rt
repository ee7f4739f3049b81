//! What is told of a made program in place of its report.

ghost use Rattle.std.specs.Prelude.{◌≡◌, ◌++◌, IfOk, OnOk};
ghost use Rattle.vsa_top.specs.Answer.{IsAnalysis, IsSummary};
ghost use Rattle.vsa_top.specs.Summary.{count_line, count_lines, summary};

use crate::outcome::Status;
use crate::reply::{Reply, book_alone, status_of};
use chip_law::LawfulChip;
use closed_book::books_are_bounded;
use dense_text::Text;
use image::ChipName;
use item_lines::InstrText;
use no_memory::Memory;
use report_bytes::{Counts, Report, head_line, push_summary, report_of};
use round_core::Book;
use std::alloc::{AllocError, Global};
use vsa_words::word_of;
use worker_rounds::Gate;

/// Adds the number of a report's lines that begin with a letter.
#[tactic(auto, unfolding(crate::specs::Summary::count_line))]
fn push_count(text: &mut Vec<u8>, letter: u8, count: u64) -> Result<(), AllocError>
    ensures { OnOk result (text.new.items ≡ text.old.items ++ count_line letter count) }
{
    let count = count.to_string(*text.allocator())?;
    text.push(letter)?;
    text.push(b' ')?;
    text.extend_from_slice(count.as_str().as_bytes())?;
    text.push(b'\n').map_err(AllocError::from)
}

/// Adds the numbers of a report's lines of each kind.
fn push_counts(text: &mut Vec<u8>, counts: Counts) -> Result<(), AllocError>
    ensures { OnOk result (text.new.items ≡ text.old.items ++ count_lines counts) }
{
    push_count(text, b'E', counts.edges)?;
    push_count(text, b'I', counts.instrs)?;
    push_count(text, b'M', counts.accesses)?;
    push_count(text, b'O', counts.opens)?;
    push_count(text, b'S', counts.stacks)
}

/// What is told of the report of a made program of `number` functions.
fn summary_of(
    alloc: Global,
    chip: ChipName,
    number: u32,
    report: &Report,
) -> Result<Vec<u8>, AllocError>
    ensures { IfOk result (λ text. text.items
        ≡ summary chip number report.now.is_closed report.now.deepest report.now.counts) }
{
    let mut text = Vec::new(alloc);
    text.extend_from_slice(b"GEN ")?;
    text.extend_from_slice(word_of(chip).as_bytes())?;
    text.push(b' ')?;
    let digits = number.to_string(alloc)?;
    text.extend_from_slice(digits.as_str().as_bytes())?;
    text.push(b'\n')?;
    text.extend_from_slice(head_line(report.is_closed))?;
    push_counts(&mut text, report.counts)?;
    push_summary(&mut text, report.deepest, report.counts.whole)?;
    Ok(text)
}

/// The status and the summary of a made program of which one worker made this book.
fn summed<C: LawfulChip + InstrText>(
    alloc: Global,
    program: &C,
    chip: ChipName,
    number: u32,
    book: &Book<C>,
) -> Result<(Status, Vec<u8>), Memory>
    requires base { book.now.base ≡ C.base program.now }
    requires made { IsAnalysis (C.analysis book.now.base) 1 book.now.journal }
    ensures { IfOk result (λ told. IsSummary (C.text_of program.now) (C.analysis (C.base program.now))
        chip number told.0 told.1.items book.now.journal) }
{
    books_are_bounded::<C>();
    program.is_program();
    let report = report_of(alloc, program, book)?;
    let text = summary_of(alloc, chip, number, &report)?;
    Ok((status_of(report.is_closed), text))
}

/// The summary of a made program that one worker analyses.
pub fn chip_summary<C: LawfulChip + InstrText, G: Gate>(
    alloc: Global,
    program: &C,
    chip: ChipName,
    number: u32,
    gate: &G,
) -> Result<Reply, Memory>
    ensures { IfOk result (λ reply. IsSummary (C.text_of program.now) (C.analysis (C.base program.now))
        chip number reply.status reply.text reply.journal.items) }
{
    let book = book_alone(alloc, program, gate)?;
    let told = summed(alloc, program, chip, number, &book);
    let (_, _, journal) = book.into_parts();
    let (status, text) = told?;
    Ok(Reply {
        status,
        text: Text::from_bytes(text),
        journal,
    })
}
