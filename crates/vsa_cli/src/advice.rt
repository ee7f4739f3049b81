//! What an answer means for a person who runs the program, on standard error. Standard output has the answer itself.

use std::alloc::Global;
use std::io;
use streams::{Sink, Source};
use vsa_advice::{
    Fault, Noted, NotedSource, image_fault, print_need, print_slip, print_unasked, print_warnings,
    text_fault,
};
use vsa_top::Status;

/// The sentence for a status, if there is one. The report, the disassembly and the trace of a run speak for themselves.
fn sentence_of(status: Status) -> Option<&'static str> {
    match status {
        Status::Done => None,
        Status::Open => Some(
            "the report is open: from each site with an O line on, the program may do more than the lines say. docs/TUTORIAL.md says what each cause means and what to do.",
        ),
        Status::Usage => Some("the command line isn't valid."),
        Status::BadImage => Some(
            "the input is no image text; docs/REPORT.md says what each fault means.",
        ),
        Status::BadCert => Some("a line of the text behind the image text is refused."),
        Status::ReadFault => Some(
            "standard input can't be read, so nothing is printed. Is it a folder, or closed?",
        ),
        Status::WriteFault => Some(
            "standard output can't be written, so the answer is cut short. Is the disk full?",
        ),
        Status::Memory => Some("memory ran out before there was an answer, so nothing is printed."),
        Status::TooLong => Some(
            "the input is too long: an image text has at most 4,194,304 bytes, and a script, assertions or a certificate at most 268,435,456.",
        ),
        Status::Wild => Some(
            "the run leaves the model in the step of the last line: no instruction stands at that address, or the step writes into the image.",
        ),
        Status::Broken => Some(
            "the report breaks each assertion that has a FAILS line, by the line of the report that stands there. docs/ASSERTIONS.md says what to do.",
        ),
        Status::NeedChoice => Some(
            "the script ends before a choice that the step of the last line asks. docs/REPORT.md lists the questions.",
        ),
    }
}

/// Prints what is wrong with an input, or the sentence for a status.
fn print_fault(rt: &impl Eprint, status: Status, fault: Option<Fault<'_>>) -> io::Result<()> {
    match fault {
        Some(fault) => fault.print(rt),
        None => print_sentence(rt, status),
    }
}

/// Prints the sentence for a status.
fn print_sentence(rt: &impl Eprint, status: Status) -> io::Result<()> {
    match sentence_of(status) {
        Some(sentence) => eprintln!(rt; "vsa: {sentence}"),
        None => Ok(()),
    }
}

/// Prints what an answer means, by its status, its words, and what was read and written.
pub fn print_advice<R: Eprint, S: Source + Drop, K: Sink + Drop>(
    rt: &R,
    alloc: Global,
    status: Status,
    words: &[String],
    source: &NotedSource<S>,
    sink: &Noted<K>,
) -> io::Result<()> {
    match status {
        Status::Usage => return print_slip(rt, alloc, words),
        Status::NeedChoice => return print_need(rt, alloc, words, sink.last(), source),
        Status::BadImage => return print_fault(rt, status, image_fault(sink.first(), source)),
        Status::BadCert => return print_fault(rt, status, text_fault(words, sink.first())),
        Status::Done => print_unasked(rt, words, source)?,
        _ => {}
    }
    print_sentence(rt, status)?;
    match sink.watch() {
        Some(watch) if status == Status::Done || status == Status::Open => {
            print_warnings(rt, watch)
        }
        _ => Ok(()),
    }
}
