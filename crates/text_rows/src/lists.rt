//! Lists, call strings, choices, digits, and lines of a report.

ghost use Rattle.std.specs.Prelude.{◌≡◌, ◌≤◌, []};

use crate::numbers::{halves, push_bytes, push_words, run_of, word_of};
use arrayvec::ArrayString;
use call_context::{Calls, Few, InstrBytes, Item, Sequence, Set, pop_call, push_call};
use choosing::{Choices, Unused};
use hex_digits::{byte, hex_byte, hex_word, push_byte, push_word, word};
use item_lines::{InstrText, item_line};
use no_memory::Memory;
use std::alloc::{AllocError, Global};
use value_set::{Vs8, Vs16};

/// A chip whose instructions have no text.
struct Silent;

impl InstrText for Silent {
    ghost text_of = { λ _ pc bytes. [] };

    fn instr_text(&self, _pc: u16, _bytes: &[u8]) -> ArrayString<40> {
        ArrayString::new()
    }
}

/// Adds the line of a stack pointer that has these values at F000h.
fn push_line(alloc: Global, out: &mut String, set: Option<Set>) -> Result<(), Memory> {
    let Some(at) = set else {
        return Ok(());
    };
    let line = item_line(alloc, &Silent, &Item::Stack { pc: 0xF000, at })?;
    Ok(push_bytes(out, line.as_slice())?)
}

/// The call string of these sites, at most eight.
fn calls_of(sites: &str) -> Calls {
    let mut calls = Calls::new();
    for site in sites.split(',') {
        if !site.is_empty() && calls.len() < 8 {
            calls.push(word_of(site));
        }
    }
    calls
}

/// Adds the string behind a call, or behind a return.
fn push_calls(out: &mut String, kind: &str, asked: &str) -> Result<(), AllocError> {
    let (first, rest) = halves(asked);
    let (second, sites) = halves(rest);
    let (calls, second) = (calls_of(sites), word_of(second));
    let calls = match kind {
        "call" => push_call(&calls, second, first.parse::<u8>().unwrap_or(0).min(8)),
        _ => pop_call(&calls, u16::from_str_radix(first, 16).ok(), second),
    };
    push_words(out, calls.as_slice())
}

/// How many options a question has: from 1 to 65,536.
fn options_of(digits: &str) -> u32
    ensures some { 1 ≤ result }
    ensures most { result ≤ 65536 }
{
    digits.parse::<u32>().unwrap_or(1).max(1).min(65536)
}

/// The choices of numbers with commas between them.
fn choices_of(alloc: Global, numbers: &str) -> Result<Choices, AllocError> {
    let mut list = Vec::new(alloc);
    for number in numbers.split(',') {
        list.push(number.parse::<u16>().unwrap_or(0))?;
    }
    Ok(Choices::new(list))
}

/// Adds which options the questions of a turn choose.
fn push_options(out: &mut String, unused: &mut Unused<'_>, turn: &str) -> Result<(), AllocError> {
    for question in turn.split(',') {
        let is_asked = !question.starts_with('-');
        let answer = match question.strip_prefix('=') {
            Some(options) => unused.ask(options_of(options)),
            None => unused.ask_if(is_asked, options_of(question.trim_start_matches('-'))),
        };
        match answer {
            Some(option) => write!(out, " {option}")?,
            None => out.push_str(" none")?,
        }
    }
    Ok(())
}

/// Adds how many choices there are in front of a turn, which options they choose, and how many the list still has.
fn push_turn(out: &mut String, choices: &mut Choices, turn: &str) -> Result<(), AllocError> {
    let mut unused = choices.unused();
    write!(out, "{}:", unused.count())?;
    push_options(out, &mut unused, turn)?;
    let left = unused.count();
    let count = choices.unused().count();
    write!(out, " of {count}; ")?;
    if left <= count {
        choices.leave(left);
    }
    Ok(())
}

/// Adds what each turn chooses.
fn push_choices(alloc: Global, out: &mut String, asked: &str) -> Result<(), AllocError> {
    let (numbers, turns) = halves(asked);
    let mut choices = choices_of(alloc, numbers)?;
    for turn in turns.split('|') {
        push_turn(out, &mut choices, turn)?;
    }
    Ok(())
}

/// Adds the number of digits, and the digits of that number.
fn push_number(out: &mut String, kind: &str, digits: &str) -> Result<(), AllocError> {
    let text = digits.as_bytes();
    match (kind, word(text), byte(text)) {
        ("word", Some(number), _) => {
            write!(out, "{number} ")?;
            push_bytes(out, hex_word(number).as_slice())
        }
        ("byte-of", _, Some(number)) => {
            write!(out, "{number} ")?;
            push_bytes(out, hex_byte(number as u8).as_slice())
        }
        _ => out.push_str("none"),
    }
}

/// Adds a byte and a word, as the texts of instructions have them.
fn push_digits(out: &mut String, asked: &str) -> Result<(), AllocError> {
    let (first, second) = halves(asked);
    let mut text = ArrayString::new();
    push_byte(&mut text, first.parse::<u8>().unwrap_or(0));
    push_word(&mut text, second.parse::<u16>().unwrap_or(0));
    out.push_str(text.as_str())
}

/// An instruction of so many bytes, an edge, or a stack pointer.
fn item_of(text: &str) -> Item {
    let (kind, rest) = halves(text);
    let (first, second) = halves(rest);
    let (pc, to) = (word_of(first), word_of(second));
    let bytes = [(pc / 256) as u8, (pc % 256) as u8];
    match kind {
        "one" => Item::Instr {
            pc: 0,
            bytes: InstrBytes::from_slice(&bytes[..1]),
        },
        "two" => Item::Instr {
            pc: 0,
            bytes: InstrBytes::from_slice(&bytes),
        },
        "edge" => Item::Edge { from: pc, to },
        "stack" => Item::Stack {
            pc,
            at: Set::W(Vs16::one(to)),
        },
        _ => Item::default(),
    }
}

/// Adds a list of a number: whether it is empty at first, and the number.
fn push_few(out: &mut String, number: &str) -> Result<(), AllocError> {
    let mut few = Few::<8>::new();
    let was_empty = few.is_empty();
    few.push(word_of(number));
    write!(out, "{was_empty} {:?} {}", few.as_slice(), few.len())
}

/// Adds a list of a number that was made of a vector.
fn push_sequence(alloc: Global, out: &mut String, number: &str) -> Result<(), Memory> {
    let mut sequence = Sequence::new(alloc);
    sequence.push(word_of(number))?;
    let again = Sequence::from_vec(sequence.into_vec());
    Ok(write!(out, "{:?}", again.as_slice())?)
}

/// Adds whether two items are the same.
fn push_sameness(out: &mut String, items: &str) -> Result<(), AllocError> {
    let (one, other) = items.split_once('|').unwrap_or((items, items));
    let is_same = item_of(one) == item_of(other);
    write!(out, "{is_same}")
}

/// Adds the bytes of an instruction.
fn push_instr(out: &mut String, item: &Item) -> Result<(), AllocError> {
    match item {
        Item::Instr { bytes, .. } => write!(out, "{:?}", bytes.as_slice()),
        _ => Ok(()),
    }
}

/// Adds a line of a report.
fn push_shown(alloc: Global, out: &mut String, kind: &str, asked: &str) -> Result<(), Memory> {
    let (base, stride, count) = run_of(asked);
    match kind {
        "run" => push_line(alloc, out, Vs16::run(base, stride, count).map(Set::W)),
        _ => {
            let (base, stride) = ((base % 256) as u8, (stride % 256) as u8);
            push_line(alloc, out, Vs8::run(base, stride, count).map(Set::B))
        }
    }
}

/// Adds what numbers and lists are.
fn push_plain(alloc: Global, out: &mut String, kind: &str, asked: &str) -> Result<(), AllocError> {
    match kind {
        "call" | "return" => push_calls(out, kind, asked),
        "choices" => push_choices(alloc, out, asked),
        "word" | "byte-of" => push_number(out, kind, asked),
        "digits" => push_digits(out, asked),
        "refusal" => write!(out, "{:?}", Memory::from(AllocError)),
        "few" => push_few(out, asked),
        "same" => push_sameness(out, asked),
        "instr" => push_instr(out, &item_of(asked)),
        _ => out.push_str("no such row"),
    }
}

/// Adds the answer to what a row asks.
pub fn push_list(alloc: Global, out: &mut String, kind: &str, asked: &str) -> Result<(), Memory> {
    match kind {
        "run" | "octets" => push_shown(alloc, out, kind, asked),
        "sequence" => push_sequence(alloc, out, asked),
        _ => Ok(push_plain(alloc, out, kind, asked)?),
    }
}
