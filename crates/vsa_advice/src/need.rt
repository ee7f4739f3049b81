//! What a run asks whose script ends too early, and how it is answered.

ghost use Rattle.image.specs.Kept.{IsRamRange};

use crate::question::question_text;
use crate::source::NotedSource;
use crate::words::has_word;
use hex_digits::word;
use ihex_read::{Image, MOST_BYTES, Reader, Rules, Tail};
use run_question::{Asked, mcs51_asks, msp430_asks};
use script_text::Reader as ScriptReader;
use std::alloc::Global;
use std::{io, str};
use streams::Source;
use vsa_words::{Reading, Target, reading_of};

/// The questions of a step of the MSP430.
const MSP430_QUESTIONS: &str =
    "A step of the MSP430 asks, in this order, what is open: which interrupt comes, 0 for none; which of two where PC or SP is an operand, 0 or 1; each byte that is neither RAM nor in the image, 0 to FF, the low one of a word first; bits 9 to 15 of SR, 0 to 7F; what PUSH.B, DADD and RRC leave open.";

/// The questions of a step of the MCS-51.
const MCS51_QUESTIONS: &str =
    "A step of the MCS-51 asks, in this order, what is open: which interrupt comes, 0 for none; the high address byte of MOVX @Ri, 0 to FF; which of two at PUSH and POP of SP, 0 or 1; each byte of a register that isn't held, of external RAM, or off the image, 0 to FF; the open bits of PSW, IE and IP; A and B behind a division by 0, 0 to FF.";

/// What is to be done where it can't be told which question a step asks.
const ADD_NUMBER: &str =
    "vsa: add a line with the number, in hexadecimal, to the script. docs/REPORT.md says all of each question.";

/// What the run asks that the words and a text say, if it can be told.
pub fn asked_of(alloc: Global, words: &[String], text: &[u8]) -> Option<Asked> {
    let Reading::Run { target, .. } = reading_of(alloc, words).ok()?? else {
        return None;
    };
    let (image, script) = parts_of(alloc, target.rules(), text)?;
    let asked = match target {
        Target::Msp430 { ram } => msp430_asks(alloc, &image, ram, script.as_slice()),
        Target::Mcs51 => mcs51_asks(alloc, &image, script.as_slice()),
    };
    drop(image);
    drop(script);
    asked.ok()?
}

/// The image and the script of a text.
fn parts_of(alloc: Global, rules: Rules, text: &[u8]) -> Option<(Image, Vec<u16>)>
    requires { IsRamRange rules }
{
    let front = &text[..text.len().min(MOST_BYTES)];
    let mut reader = Reader::new(alloc, rules, Tail::Second).ok()?;
    let Ok(used) = reader.feed(front) else {
        drop(reader);
        return None;
    };
    let image = reader.end().ok();
    image.zip(script_of(alloc, &text[used..]))
}

/// The numbers of a script.
fn script_of(alloc: Global, text: &[u8]) -> Option<Vec<u16>> {
    if text.len() > script_text::MOST_BYTES {
        return None;
    }
    let mut reader = ScriptReader::new(alloc);
    reader.feed(text).and(reader.end()).ok()
}

/// Says which number of the script is missing, what it answers, and which options there are.
fn print_asked(
    rt: &impl Eprint,
    asked: &Asked,
    question: &str,
    options: u32,
    number: usize,
) -> io::Result<()> {
    let (step, pc) = (asked.step, asked.pc);
    let place = match asked.instr.as_str() {
        "" => "where no instruction stands",
        instr => instr,
    };
    eprintln!(rt;
        "vsa: number {number} of the script is missing: step {step}, {place} at {pc:04X}h, asks a question.\nvsa: {question}\nvsa: add a line with one of these {options} numbers, in hexadecimal, to the script. docs/REPORT.md says all of each question."
    )
}

/// Says what is asked, and which number of the script is missing. False says that it can't be told.
fn print_in_words(
    rt: &impl Eprint,
    alloc: Global,
    asked: &Asked,
    is_mcs51: bool,
    number: usize,
) -> io::Result<bool> {
    let Some(question) = &asked.question else {
        return Ok(false);
    };
    let Ok(sentence) = question_text(alloc, question, is_mcs51) else {
        return Ok(false);
    };
    let printed = print_asked(rt, asked, sentence.as_str(), question.options(), number);
    drop(sentence);
    printed.and(Ok(true))
}

/// Says which number of the script is missing, and what it answers. False says that it can't be told.
fn print_question(
    rt: &impl Eprint,
    alloc: Global,
    words: &[String],
    text: &[u8],
    number: usize,
) -> io::Result<bool> {
    let Some(asked) = asked_of(alloc, words, text) else {
        return Ok(false);
    };
    let printed = print_in_words(rt, alloc, &asked, has_word(words, "mcs51"), number);
    drop(asked);
    printed
}

/// The address to which the last edge of a trace goes, and the step that lacks a choice.
fn lacking_step(last: &[u8]) -> Option<(Option<&str>, &str)> {
    let text = str::from_utf8(last).ok()?;
    let (front, step) = text.trim_end().split_once("NEED ")?;
    let place = front.trim_end().split(' ').last();
    Some((place.filter(|place| word(place.as_bytes()).is_some()), step))
}

/// Says which number of the script is missing, for which step, and what that may ask.
pub fn print_need<S: Source + Drop>(
    rt: &impl Eprint,
    alloc: Global,
    words: &[String],
    last: &[u8],
    source: &NotedSource<S>,
) -> io::Result<()> {
    let number = source.second_lines().saturating_add(1);
    if let Some(text) = source.text()
        && print_question(rt, alloc, words, text, number)?
    {
        return Ok(());
    }
    let questions = if has_word(words, "mcs51") {
        MCS51_QUESTIONS
    } else {
        MSP430_QUESTIONS
    };
    match lacking_step(last) {
        Some((Some(place), step)) => eprintln!(rt;
            "vsa: number {number} of the script is missing: step {step}, at {place}h, asks for a choice.\nvsa: {questions}\n{ADD_NUMBER}"
        ),
        Some((None, step)) => eprintln!(rt;
            "vsa: number {number} of the script is missing: step {step} asks for a choice.\nvsa: {questions}\n{ADD_NUMBER}"
        ),
        None => Ok(()),
    }
}
