//! The program: the top call over the standard input and output, and words for a person on standard error.
#![tactic(auto)]

mod advice;
mod output;
mod progress;

use crate::advice::print_advice;
use crate::output::Output;
use crate::progress::Progress;
use std::io::IsTerminal;
use std::process::ExitCode;
use std::{env, io};
use vsa_advice::{Noted, NotedSource, kept_text, watch_of};
use vsa_io::StdinSource;
use vsa_top::{Status, vsa};

/// The words after the program's name. If one of them isn't UTF-8 there are none, which are as invalid.
fn words(rt: &HostRuntime) -> io::Result<Vec<String>> {
    match env::args(rt) {
        Ok(words) => Ok(words.skip(1).collect(rt.alloc())?),
        Err(error) if error.kind() == io::ErrorKind::InvalidData => Ok(Vec::new(rt.alloc())),
        Err(error) => Err(error),
    }
}

fn main(rt: HostRuntime) -> ExitCode {
    let Ok(words) = words(&rt) else {
        let _ = eprintln!(rt;
            "vsa: memory ran out before there was an answer, so nothing is printed."
        );
        return ExitCode::from(Status::Memory as u8);
    };
    let words = words.as_slice();
    let progress = Progress::new(&rt, rt.stderr().is_terminal());
    let mut source = NotedSource::new(StdinSource::new(&rt), kept_text(rt.alloc(), words));
    let mut sink = Noted::new(Output::new(&rt, &progress), watch_of(rt.alloc(), words));
    let outcome = vsa(&rt, rt.alloc(), words, &mut source, &mut sink, &progress);
    progress.clear();
    // Nobody is there to read what a closed pipe means. Where standard error fails, only the words are lost.
    if !sink.sink().is_closed() {
        let _ = print_advice(&rt, rt.alloc(), outcome.status, words, &source, &sink);
    }
    ExitCode::from(outcome.status as u8)
}
