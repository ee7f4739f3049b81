//! Rows of pages, graphs and differences of reports: the standard output says how many lines of the standard input hold, and
//! which don't.
//!
//! `new` begins a text, `list` a list of symbols behind it, `+ LINE` adds a line to it, and `edges` an edge from each of a hundred addresses to each. `$ WORDS`
//! asks what the words ask of the text, as `./view WORDS` does. Behind it `N PART` holds where the answer has the part so
//! often, `begins PART` where it begins so, and `ends PART` where it ends so; `~` is a line feed. `front N` holds where so many
//! bytes of the text are its first report.
#![tactic(auto)]

use report_page::{ViewError, ask_of, front_of, given_instead, view};
use row_parts::{add_line, tell, words_of};
use std::alloc::{AllocError, Global};
use std::{io, str};
use symbol_lists::SymbolError;

/// A text, and the answer to what was asked of it last.
#[derive(Drop)]
struct Bench {
    text: String,
    /// Where its lists of symbols begin.
    lists: Vec<usize>,
    answer: String,
}

/// What is said of a list of symbols that is refused.
fn bad_names(alloc: Global, which: &str, error: SymbolError) -> Result<String, AllocError> {
    match error {
        SymbolError::Bad { line, form: _ } => format!(in alloc; "{which} line {line}"),
        SymbolError::Memory => Err(AllocError),
    }
}

/// What is said of a text that isn't shown.
fn said(alloc: Global, error: ViewError, text: &[u8]) -> Result<String, AllocError> {
    match error {
        ViewError::Refused(refusal) => match given_instead(refusal, text) {
            Some(sentence) => String::from_str(alloc, sentence),
            None => format!(in alloc; "line {}", refusal.line),
        },
        ViewError::RefusedSecond(refusal) => format!(in alloc; "second line {}", refusal.line),
        ViewError::BadNames(error) => bad_names(alloc, "names", error),
        ViewError::BadSecondNames(error) => bad_names(alloc, "second names", error),
        ViewError::BadImage(line) => format!(in alloc; "image line {line}"),
        ViewError::Foreign(pc) => format!(in alloc; "foreign {pc:04X}"),
        ViewError::NoFunction(pc) => format!(in alloc; "no function {pc:04X}"),
        ViewError::Memory => Err(AllocError),
    }
}

/// Adds how many bytes each list of symbols has that begins there, in a text of so many bytes.
fn add_lengths(
    alloc: Global,
    words: &mut Vec<String>,
    lists: &[usize],
    size: usize,
) -> Result<(), AllocError> {
    for k in 0..lists.len() {
        let end = if k + 1 < lists.len() {
            lists[k + 1]
        } else {
            size
        };
        let length = end.saturating_sub(lists[k]);
        words.push(format!(in alloc; "names={length}")?)?;
    }
    Ok(())
}

/// The answer to words about a text, in which lists of symbols begin there.
fn answer_to(
    alloc: Global,
    words: &str,
    text: &[u8],
    lists: &[usize],
) -> Result<String, AllocError> {
    let mut words = words_of(alloc, words)?;
    add_lengths(alloc, &mut words, lists, text.len())?;
    let Some(ask) = ask_of(words.as_slice()) else {
        return String::from_str(alloc, "other words");
    };
    match view(alloc, ask, text) {
        Ok(shown) => String::from_str(
            alloc,
            str::from_utf8(shown.text.as_slice()).unwrap_or("no text"),
        ),
        Err(error) => said(alloc, error, text),
    }
}

/// Adds an edge from each of a hundred addresses to each.
fn add_edges(text: &mut String) -> Result<(), AllocError> {
    for from in 4096..4196 {
        for to in 4096..4196 {
            write!(text, "E {from:04X} {to:04X}\n")?;
        }
    }
    Ok(())
}

impl Bench {
    /// Does what a line says, and tells whether it holds where it is a row.
    fn take(&mut self, alloc: Global, line: &str) -> Result<Option<bool>, AllocError> {
        let (sign, rest) = line.split_once(' ').unwrap_or((line, ""));
        match sign {
            "" | "#" => return Ok(None),
            "new" => {
                self.text.clear();
                self.lists.clear();
            }
            "list" => self.lists.push(self.text.len())?,
            "+" => add_line(&mut self.text, rest)?,
            "edges" => add_edges(&mut self.text)?,
            "$" => {
                let lists = self.lists.as_slice();
                self.answer = answer_to(alloc, rest, self.text.as_bytes(), lists)?;
            }
            _ => return Ok(Some(self.holds(alloc, sign, rest)?)),
        }
        Ok(None)
    }

    /// Whether a row holds.
    fn holds(&self, alloc: Global, sign: &str, part: &str) -> Result<bool, AllocError> {
        let part = part.replace(alloc, "~", "\n")?;
        let (part, answer) = (part.as_str(), self.answer.as_str());
        Ok(match sign {
            "begins" => answer.starts_with(part),
            "ends" => answer.ends_with(part),
            "front" => part.parse::<usize>() == Ok(front_of(self.text.as_bytes()).0.len()),
            _ => sign.parse::<usize>() == Ok(answer.matches(part).count()),
        })
    }
}

fn main(rt: HostRuntime) -> io::Result<()> {
    let alloc = rt.alloc();
    let mut bench = Bench {
        text: String::new(alloc),
        lists: Vec::new(alloc),
        answer: String::new(alloc),
    };
    tell(rt, |line| bench.take(alloc, line))
}
