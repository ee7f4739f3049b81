//! Shows a report as a page of HTML, or as a graph for Graphviz.
#![tactic(auto)]

use report_lines::Refusal;
use report_page::{Asked, ViewError, ask_of, given_instead, view};
use std::alloc::Global;
use std::process::ExitCode;
use std::{env, io};
use symbol_lists::SymbolError;
use vsa_io::{Source, StdinSource, StdoutSink, write_all};

/// How a run ends.
#[derive(Clone, Copy)]
enum Status {
    Done = 0,
    Differs = 1,
    Usage = 2,
    Refused = 3,
    ReadFault = 5,
    WriteFault = 6,
    Memory = 7,
}

/// Why the input isn't had.
enum InputError {
    Failed,
    Memory,
}

/// The whole input.
fn input<S: Source>(alloc: Global, source: &mut S) -> Result<Vec<u8>, InputError> {
    let mut text = Vec::new(alloc);
    let mut buffer = [0u8; 4096];
    for _ in 0..u64::MAX {
        let Ok(count) = source.read(&mut buffer) else {
            return Err(InputError::Failed);
        };
        if count == 0 {
            break;
        }
        if text.extend_from_slice(&buffer[..count]).is_err() {
            return Err(InputError::Memory);
        }
    }
    Ok(text)
}

/// Tells which line of a report is refused, or what the input is in place of one.
fn tell_refusal(rt: &impl Eprint, which: &str, refusal: Refusal, text: &[u8]) -> io::Result<()> {
    if which.is_empty()
        && let Some(sentence) = given_instead(refusal, text)
    {
        return eprintln!(rt; "view: {sentence}");
    }
    let (line, sentence) = (refusal.line, refusal.why.sentence());
    eprintln!(rt; "view: {which}line {line}: {sentence}")
}

/// Tells which line of a list of symbols is refused.
fn tell_names(rt: &impl Eprint, which: &str, error: SymbolError) -> io::Result<()> {
    let sentence = error.sentence();
    match error {
        SymbolError::Bad { line, form: _ } => {
            eprintln!(rt; "view: {which}, line {line}: {sentence}")
        }
        SymbolError::Memory => eprintln!(rt; "view: {sentence}"),
    }
}

/// Tells why nothing is shown.
fn tell(rt: &impl Eprint, error: ViewError, text: &[u8]) -> io::Result<()> {
    match error {
        ViewError::Refused(refusal) => tell_refusal(rt, "", refusal, text),
        ViewError::RefusedSecond(refusal) => tell_refusal(rt, "the second report, ", refusal, text),
        ViewError::BadNames(error) => tell_names(rt, "the list of symbols", error),
        ViewError::BadSecondNames(error) => { tell_names(rt, "the second list of symbols", error) }
        ViewError::BadImage(line) => {
            eprintln!(rt;
                "view: line {line} of the image's text is faulty; ./vsa says what is wrong with it."
            )
        }
        ViewError::Foreign(pc) => {
            eprintln!(rt;
                "view: the report is of another image: at {pc:04X}h this one has other bytes."
            )
        }
        ViewError::NoFunction(pc) => {
            eprintln!(rt;
                "view: no function begins at {pc:04X}h. The page lists those that there are, and so does ./view dot calls."
            )
        }
        ViewError::Memory => eprintln!(rt; "view: memory ran out, so nothing is shown."),
    }
}

fn usage(rt: &impl Eprint) -> io::Result<()> {
    eprintln!(rt;
        "view: the words are html, dot, dot calls, dot ADDRESS or diff; ./view --help says more."
    )
}

/// The words behind the program's name, or none where they can't be had.
fn words(rt: &HostRuntime) -> io::Result<Vec<String>> {
    Ok(env::args(rt)?.skip(1).collect(rt.alloc())?)
}

/// Reads the report, and writes what is asked.
fn run(rt: &HostRuntime, asked: Asked<'_>) -> Status {
    let text = match input(rt.alloc(), &mut StdinSource::new(rt)) {
        Ok(text) => text,
        Err(InputError::Failed) => return Status::ReadFault,
        Err(InputError::Memory) => return Status::Memory,
    };
    match view(rt.alloc(), asked, &text) {
        Ok(shown) => match write_all(&mut StdoutSink::new(rt), shown.text.as_slice()) {
            Ok(()) if shown.differs => Status::Differs,
            Ok(()) => Status::Done,
            Err(_) => Status::WriteFault,
        },
        Err(error) => {
            let _ = tell(rt, error, &text);
            match error {
                ViewError::Memory => Status::Memory,
                _ => Status::Refused,
            }
        }
    }
}

fn main(rt: HostRuntime) -> ExitCode {
    let Ok(words) = words(&rt) else {
        return ExitCode::from(Status::Memory as u8);
    };
    let Some(asked) = ask_of(words.as_slice()) else {
        let _ = usage(&rt);
        return ExitCode::from(Status::Usage as u8);
    };
    ExitCode::from(run(&rt, asked) as u8)
}
