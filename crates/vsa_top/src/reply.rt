//! What is answered to an input, before any of it is written.

ghost use Rattle.std.specs.Prelude.{◌≡◌, ◌≢◌, ◌≤◌, ℕ, [], IfOk, IfErr, OnOk};
ghost use Rattle.image.specs.Kept.{IsRamRange, IsReadUnder};
ghost use Rattle.run_trace.specs.Trace.{run_of};
ghost use Rattle.vsa_top.specs.Answer.{IsAnalysis, IsFollowed, IsImageReply, IsListing, IsReply, IsReported, IsRun, bad_line as the_bad_line, no_line as the_no_line, run_under, status_of_analysis, status_of_end};
ghost use Rattle.vsa_top.specs.Faults.{TellsFaults};
ghost use Rattle.vsa_top.specs.Input.{begun_with};
ghost use Rattle.vsa_words.specs.Words.{IsBounded, rules_of, target_rules};

use crate::asked::asked_of;
use crate::input::{InputError, image_in};
use crate::mcs51::{Mcs51Code, Mcs51Run};
use crate::msp430::{Msp430Code, Msp430Run};
use crate::outcome::Status;
use crate::script::{ScriptRefusal, script_in};
use cert_text::book_certificate;
use chip_analysis::Chip;
use closed_book::books_are_bounded;
use dense_text::Text;
use disassembly::disassembly_of;
use ihex_read::HexFault;
use image::Image;
use item_lines::InstrText;
use mcs51_flow::Mcs51Text;
use msp430_chip::Device;
use msp430_flow::Msp430Text;
use no_memory::Memory;
use report_bytes::report_of;
use round_core::{Book, Event};
use run_trace::{Emulator, End, trace_of};
use state_text::LawfulText;
use std::alloc::{AllocError, Global};
use std::sync::Wait;
use std::thread::Threads;
use streams::Source;
use vsa_words::{Reading, Target, Task};
use worker_crew::fixpoint;
use worker_rounds::{Gate, watched_fixpoint};

/// A status with its text, and the events whose replay gives the book of which the text is the report, if it is one.
#[derive(Drop)]
pub struct Reply {
    pub status: Status,
    pub text: Text,
    pub journal: Vec<Event>,
}

/// Why there is no reply.
#[derive(Clone, Copy, Debug, PartialEq, Eq)]
pub enum NoReply {
    /// The source failed.
    ReadFault,
    /// Memory was refused.
    Memory,
}

impl From<Memory> for NoReply {
    ghost use Rattle.vsa_top.specs.declared.reply.NoReply.TheVariants as no_reply;

    ghost from_gives = { λ _ e. e ≡ no_reply.Memory };

    fn from(_error: Memory) -> NoReply {
        NoReply::Memory
    }
}

impl From<AllocError> for NoReply {
    ghost use Rattle.vsa_top.specs.declared.reply.NoReply.TheVariants as no_reply;

    ghost from_gives = { λ _ e. e ≡ no_reply.Memory };

    fn from(_error: AllocError) -> NoReply {
        NoReply::Memory
    }
}

/// A reply without events, whose text was built.
fn built_reply(alloc: Global, status: Status, text: Text) -> Reply
    ensures status { result.status ≡ status }
    ensures text { result.text ≡ text }
    ensures journal { result.journal.items ≡ [] }
{
    Reply {
        status,
        text,
        journal: Vec::new(alloc),
    }
}

/// A reply without events.
pub fn text_reply(alloc: Global, status: Status, text: Vec<u8>) -> Reply
    ensures status { result.status ≡ status }
    ensures text { result.text ≡ text.items }
    ensures journal { result.journal.items ≡ [] }
{
    built_reply(alloc, status, Text::from_bytes(text))
}

/// The status of a report.
pub fn status_of(is_closed: bool) -> Status
    ensures { result ≡ status_of_analysis is_closed }
{
    if is_closed {
        Status::Done
    } else {
        Status::Open
    }
}

/// The status of a run.
fn status_of_run(end: End) -> Status
    ensures { result ≡ status_of_end end }
{
    match end {
        End::Ran => Status::Done,
        End::Wild => Status::Wild,
        End::NeedChoice => Status::NeedChoice,
    }
}

/// The book of a program that one worker analyses.
pub fn book_alone<C: Chip, G: Gate>(alloc: Global, chip: &C, gate: &G) -> Result<Book<C>, Memory>
    ensures base { IfOk result (λ book. book.base ≡ C.base chip.now) }
    ensures analysis { IfOk result (λ book. IsAnalysis (C.analysis book.base) 1 book.journal) }
{
    watched_fixpoint(alloc, chip, gate)
}

/// The book of a program that so many workers analyse.
pub fn book_of<R: Threads + Wait + Sync, C: Chip<Base: Send> + Send + Sync, G: Gate + Sync>(
    rt: &R,
    alloc: Global,
    chip: &C,
    workers: u32,
    gate: &G,
) -> Result<Book<C>, Memory>
    requires some { 1 ≤ workers }
    requires few { workers ≤ 16 }
    ensures base { IfOk result (λ book. book.base ≡ C.base chip.now) }
    ensures analysis { IfOk result (λ book. IsAnalysis (C.analysis book.base) workers book.journal) }
{
    if workers == 1 {
        return book_alone(alloc, chip, gate);
    }
    fixpoint(rt, alloc, chip, workers, gate)
}

/// Adds the certificate of a book behind its report, where one is asked for.
fn push_certificate<C: LawfulText>(
    alloc: Global,
    chip: &C,
    book: &Book<C>,
    cert: bool,
    text: &mut Vec<u8>,
) -> Result<(), Memory>
    requires { C.base chip.now ≡ book.now.base }
    ensures { (let b = C.base chip.now in
        OnOk result (IsFollowed (C.analysis b) (C.texts b) cert book.now.journal text.old.items text.new.items)) }
{
    if cert {
        let certificate = book_certificate(alloc, chip, book)?;
        text.extend_from_slice(certificate.as_slice())?;
    }
    Ok(())
}

/// The status and the text of the report of a book, with its certificate where one is asked for.
fn reported<C: LawfulText + InstrText>(
    alloc: Global,
    chip: &C,
    book: &Book<C>,
    cert: bool,
) -> Result<(Status, Vec<u8>), Memory>
    requires base { book.now.base ≡ C.base chip.now }
    ensures { (let b = C.base chip.now in IfOk result (λ told. (workers : ℕ) → IsAnalysis (C.analysis b) workers book.now.journal
        → IsReported (C.text_of chip.now) (C.analysis b) (C.texts b) workers cert told.0 told.1.items book.now.journal)) }
{
    books_are_bounded::<C>();
    chip.is_program();
    let report = report_of(alloc, chip, book)?;
    let mut text = report.text;
    push_certificate(alloc, chip, book, cert, &mut text)?;
    Ok((status_of(report.is_closed), text))
}

/// The report of a book of so many workers, and its certificate where one is asked for.
fn analysed<C: LawfulText + InstrText>(
    alloc: Global,
    chip: &C,
    book: Book<C>,
    cert: bool,
) -> Result<Reply, Memory>
    requires base { book.base ≡ C.base chip.now }
    ensures { (let b = C.base chip.now in IfOk result (λ reply. (workers : ℕ) → IsAnalysis (C.analysis b) workers book.journal
        → IsReported (C.text_of chip.now) (C.analysis b) (C.texts b) workers cert reply.status reply.text reply.journal.items)) }
{
    let told = reported(alloc, chip, &book, cert);
    let (_, _, journal) = book.into_parts();
    let (status, text) = told?;
    Ok(Reply {
        status,
        text: Text::from_bytes(text),
        journal,
    })
}

/// The line that tells a faulty line of an image text.
#[tactic(auto, unfolding(crate::specs::Answer::bad_line))]
fn bad_line(alloc: Global, line: u32, fault: HexFault) -> Result<Vec<u8>, AllocError>
    ensures { IfOk result (λ text. text.items ≡ the_bad_line line fault) }
{
    let number = line.to_string(alloc)?;
    let mut text = Vec::new(alloc);
    text.extend_from_slice(b"BAD ")?;
    text.extend_from_slice(number.as_str().as_bytes())?;
    text.push(b' ')?;
    text.extend_from_slice(fault.name().as_bytes())?;
    text.push(b'\n')?;
    Ok(text)
}

/// The line that tells a refused line of a second text.
#[tactic(auto, unfolding(crate::specs::Answer::no_line))]
pub fn no_line(alloc: Global, line: u32) -> Result<Vec<u8>, AllocError>
    ensures { IfOk result (λ text. text.items ≡ the_no_line line) }
{
    let number = line.to_string(alloc)?;
    let mut text = Vec::new(alloc);
    text.extend_from_slice(b"NO ")?;
    text.extend_from_slice(number.as_str().as_bytes())?;
    text.extend_from_slice(b" Syntax\n")?;
    Ok(text)
}

/// The disassembly of an image of a chip.
fn listing_of(alloc: Global, target: Target, image: &Image) -> Result<Vec<u8>, AllocError>
    ensures { IfOk result (λ text. IsListing target image.now text.items) }
{
    match target {
        Target::Msp430 { .. } => disassembly_of::<Msp430Code>(alloc, image),
        Target::Mcs51 => disassembly_of::<Mcs51Code>(alloc, image),
    }
}

/// The run of a machine along the script that stands behind an image text, of which so much was read; or what is refused
/// of the script's text.
fn run_reply<S: Source, E: Emulator, T: InstrText>(
    alloc: Global,
    machine: &mut E,
    texts: &T,
    steps: u32,
    begun: &[u8],
    source: &mut S,
) -> Result<Reply, NoReply>
    ensures run { IfOk result (λ reply. IsRun (λ script. run_of (E.runner machine.old) (T.text_of texts.now) steps (E.state machine.old) script) (begun_with begun.now (S.left source.old)) reply.status reply.text) }
    ensures journal { IfOk result (λ reply. reply.journal.items ≡ []) }
    ensures faults { TellsFaults NoReply.ReadFault (S.faults source.old) (S.faults source.new) result }
{
    match script_in(alloc, source, begun) {
        Ok(script) => {
            let trace = trace_of(alloc, machine, texts, script, steps)?;
            Ok(built_reply(alloc, status_of_run(trace.end), trace.text))
        }
        Err(ScriptRefusal::Syntax { line }) => {
            let text = no_line(alloc, line)?;
            Ok(text_reply(alloc, Status::BadCert, text))
        }
        Err(ScriptRefusal::TooLong) => {
            let text = Vec::from_slice(alloc, b"LONG\n")?;
            Ok(text_reply(alloc, Status::TooLong, text))
        }
        Err(ScriptRefusal::Failed) => Err(NoReply::ReadFault),
        Err(ScriptRefusal::Memory) => Err(NoReply::Memory),
    }
}

/// The run of a chip under an image, along the script behind its text.
fn chip_run_reply<S: Source>(
    alloc: Global,
    target: Target,
    steps: u32,
    image: Image,
    begun: &[u8],
    source: &mut S,
) -> Result<Reply, NoReply>
    requires { IsRamRange (target_rules target) }
    ensures run { IfOk result (λ reply. IsRun (run_under target steps image) (begun_with begun.now (S.left source.old)) reply.status reply.text) }
    ensures journal { IfOk result (λ reply. reply.journal.items ≡ []) }
    ensures faults { TellsFaults NoReply.ReadFault (S.faults source.old) (S.faults source.new) result }
{
    match target {
        Target::Msp430 { ram } => {
            let device = Device { image, ram };
            let mut run = Msp430Run::reset(alloc, &device)?;
            run_reply(alloc, &mut run, &Msp430Text, steps, begun, source)
        }
        Target::Mcs51 => {
            let mut run = Mcs51Run::reset(&image);
            run_reply(alloc, &mut run, &Mcs51Text, steps, begun, source)
        }
    }
}

/// The report of a program that so many workers analyse, and its certificate where one is asked for.
pub fn chip_reply<
    R: Threads + Wait + Sync,
    C: LawfulText<Base: Send> + InstrText + Send + Sync,
    G: Gate + Sync,
>(rt: &R, alloc: Global, chip: &C, workers: u32, cert: bool, gate: &G) -> Result<Reply, Memory>
    requires some { 1 ≤ workers }
    requires few { workers ≤ 16 }
    ensures { (let b = C.base chip.now in IfOk result (λ reply.
        IsReported (C.text_of chip.now) (C.analysis b) (C.texts b) workers cert reply.status reply.text reply.journal.items)) }
{
    let book = book_of(rt, alloc, chip, workers, gate)?;
    analysed(alloc, chip, book, cert)
}

/// What the words ask of an image, behind whose text so much was read.
fn image_reply<R: Threads + Wait + Sync, S: Source, G: Gate + Sync>(
    rt: &R,
    alloc: Global,
    reading: Reading,
    image: Image,
    begun: &[u8],
    source: &mut S,
    gate: &G,
) -> Result<Reply, NoReply>
    requires range { IsRamRange (rules_of reading) }
    requires bounded { IsBounded reading }
    requires kept { IsReadUnder (rules_of reading) image }
    ensures reply { IfOk result (λ reply. IsImageReply reading image (begun_with begun.now (S.left source.old)) reply.status reply.text reply.journal.items) }
    ensures faults { TellsFaults NoReply.ReadFault (S.faults source.old) (S.faults source.new) result }
{
    match reading {
        Reading::Analyse { task } => asked_of(rt, alloc, reading, task, image, begun, source, gate),
        Reading::Assert { task } => asked_of(rt, alloc, reading, task, image, begun, source, gate),
        Reading::Check { task } => asked_of(rt, alloc, reading, task, image, begun, source, gate),
        Reading::Gen { chip, number } => {
            let made = Reading::Gen { chip, number };
            let task = Task::usual(chip);
            asked_of(rt, alloc, made, task, image, begun, source, gate)
        }
        Reading::Disasm { target } => {
            let lines = listing_of(alloc, target, &image)?;
            Ok(text_reply(alloc, Status::Done, lines))
        }
        Reading::Run { target, steps } => {
            chip_run_reply(alloc, target, steps, image, begun, source)
        }
    }
}

/// What the words ask of an input: of its image, or its first faulty line, or that it is too long.
pub fn input_reply<R: Threads + Wait + Sync, S: Source, G: Gate + Sync>(
    rt: &R,
    alloc: Global,
    reading: Reading,
    source: &mut S,
    gate: &G,
) -> Result<Reply, NoReply>
    requires range { IsRamRange (rules_of reading) }
    requires bounded { IsBounded reading }
    ensures reply { IfOk result (λ reply. IsReply reading (S.left source.old) reply.status reply.text reply.journal.items) }
    ensures faults { TellsFaults NoReply.ReadFault (S.faults source.old) (S.faults source.new) result }
{
    match image_in(alloc, source, reading.rules(), reading.tail()) {
        Ok((image, begun)) => image_reply(
            rt,
            alloc,
            reading,
            image,
            begun.as_slice(),
            source,
            gate,
        ),
        Err(InputError::Bad { line, fault }) => {
            let text = bad_line(alloc, line, fault)?;
            Ok(text_reply(alloc, Status::BadImage, text))
        }
        Err(InputError::TooLong) => {
            let text = Vec::from_slice(alloc, b"LONG\n")?;
            Ok(text_reply(alloc, Status::TooLong, text))
        }
        Err(InputError::Failed) => Err(NoReply::ReadFault),
        Err(InputError::Memory) => Err(NoReply::Memory),
    }
}
