//! A whole report.

ghost use Rattle.std.specs.Prelude.{◌≡◌, ◌++◌, ◌∷◌, [], IfSome, IfOk, OnOk};
ghost use Rattle.report_lines.specs.Text.{front_text, report_text, verdict_text};

use crate::digits::{cut, decimal};
use crate::line::Line;
use crate::refusal::{ReadError, Refusal, Why};
use crate::set::{Set, Width, number};
use std::alloc::Global;

/// The T line: the extreme of the stack pointers, if there is one, and how many S lines say nothing of them.
#[derive(Clone, Copy, PartialEq, Eq)]
pub struct Summary {
    pub extreme: Option<u16>,
    pub whole: usize,
}

/// The lines of a report, in the order of the text.
#[derive(Drop)]
pub struct Report<'a> {
    pub closed: bool,
    pub lines: Vec<Line<'a>>,
    /// How many digits its stack pointers have, where one is written.
    pub width: Option<Width>,
    pub summary: Summary,
    /// The text of the summary behind its letter.
    pub summary_text: &'a [u8],
    // The last line, and the last address with an instruction.
    last: &'a [u8],
    instr: Option<u16>,
}

impl<'a> Report<'a> {
    /// No line yet.
    fn new(alloc: Global, closed: bool) -> Report<'a>
        ensures closed { result.closed ≡ closed }
        ensures lines { result.lines.items ≡ [] }
    {
        Report {
            closed,
            lines: Vec::new(alloc),
            width: None,
            summary: Summary {
                extreme: None,
                whole: 0,
            },
            summary_text: b"",
            last: b"",
            instr: None,
        }
    }

    /// Whether the stack grows toward higher addresses, as that of the MCS-51 does.
    pub fn grows_up(&self) -> bool {
        self.width == Some(Width::Byte)
    }

    /// The value of a set that is farthest along the stack's growth.
    pub fn deepest(&self, set: &Set<'_>) -> u16 {
        if self.grows_up() {
            set.greatest
        } else {
            set.least
        }
    }

    /// What is wrong with a line behind those that were read.
    fn wrong_with(&self, line: &Line<'a>, text: &'a [u8]) -> Option<Why> {
        if text <= self.last {
            return Some(Why::OutOfOrder);
        }
        match line {
            Line::Instr(instr) if self.instr == Some(instr.pc) => Some(Why::SecondInstr),
            Line::Open(_) if self.closed => Some(Why::OpenInClosed),
            Line::Stack(stack) if !self.takes(stack.at.width) => Some(Why::OtherWidth),
            _ => None,
        }
    }

    /// Whether stack pointers may have this width.
    fn takes(&self, width: Option<Width>) -> bool {
        match (self.width, width) {
            (Some(own), Some(other)) => own == other,
            _ => true,
        }
    }

    /// Keeps what later lines are compared with.
    fn keep(&mut self, line: &Line<'a>, text: &'a [u8])
        ensures closed { self.new.closed ≡ self.old.closed }
        ensures lines { self.new.lines ≡ self.old.lines }
    {
        self.last = text;
        match line {
            Line::Instr(instr) => self.instr = Some(instr.pc),
            Line::Stack(stack) if self.width.is_none() => self.width = stack.at.width,
            _ => {}
        }
    }

    /// Takes the next line.
    fn take(&mut self, number: usize, text: &'a [u8]) -> Result<(), ReadError>
        ensures closed { self.new.closed ≡ self.old.closed }
        ensures text { OnOk result (front_text self.new.closed self.new.lines.items
            ≡ front_text self.old.closed self.old.lines.items ++ text.now ++ 10 ∷ []) }
    {
        let line = match Line::read(text) {
            Ok(line) => line,
            Err(why) => return Err(refused(number, why)),
        };
        if let Some(why) = self.wrong_with(&line, text) {
            return Err(refused(number, why));
        }
        self.keep(&line, text);
        self.lines.push(line)?;
        Ok(())
    }

    /// The summary of the S lines.
    fn own_summary(&self) -> Summary {
        let mut extreme = None;
        let mut whole = 0usize;
        for line in self.lines.iter() {
            if let Line::Stack(stack) = line {
                if stack.at.is_whole() {
                    whole = whole.saturating_add(1);
                } else {
                    extreme = Some(self.farther(extreme, self.deepest(&stack.at)));
                }
            }
        }
        Summary { extreme, whole }
    }

    /// The one of two values that is farther along the stack's growth.
    fn farther(&self, known: Option<u16>, value: u16) -> u16 {
        match known {
            None => value,
            Some(known) if self.grows_up() => known.max(value),
            Some(known) => known.min(value),
        }
    }

    /// Takes the text of the T line behind its letter, behind which nothing may stand.
    fn end(&mut self, number: usize, text: &'a [u8], behind: &[u8]) -> Result<(), ReadError>
        ensures closed { self.new.closed ≡ self.old.closed }
        ensures lines { self.new.lines ≡ self.old.lines }
        ensures text { OnOk result (self.new.summary_text.now ≡ text.now) }
        ensures behind { OnOk result (behind.now ≡ []) }
    {
        let Some(summary) = summary_of(text) else {
            return Err(refused(number, Why::Summary));
        };
        if summary != self.own_summary() {
            return Err(refused(number, Why::OtherSummary));
        }
        if !behind.is_empty() {
            return Err(refused(number.saturating_add(1), Why::BehindSummary));
        }
        self.summary = summary;
        self.summary_text = text;
        Ok(())
    }
}

/// The summary of a text: none or a number of two or four digits, and a decimal number.
fn summary_of(text: &[u8]) -> Option<Summary> {
    let (value, whole) = cut(text, b' ')?;
    let whole = decimal(whole)?;
    match number(value) {
        Some((value, _)) => Some(Summary {
            extreme: Some(value),
            whole,
        }),
        None if value == b"none".as_slice() => Some(Summary {
            extreme: None,
            whole,
        }),
        None => None,
    }
}

/// Whether each byte of a line is a printable ASCII character.
fn is_printable(line: &[u8]) -> bool {
    line.iter().all(|byte| b' ' <= *byte && *byte <= b'~')
}

/// Whether the report is closed, by its first line.
fn verdict_of(line: &[u8]) -> Option<bool>
    ensures { IfSome result (λ closed. verdict_text closed ≡ line.now) }
{
    match line {
        b"CLOSED" => Some(true),
        b"OPEN" => Some(false),
        _ => None,
    }
}

/// The text of a T line behind its letter.
fn summary_text(line: &[u8]) -> Option<&[u8]>
    ensures { IfSome result (λ text. line.now ≡ 84 ∷ 32 ∷ text.now) }
{
    match line {
        [b'T', b' ', text @ ..] => Some(text),
        _ => None,
    }
}

/// The refusal of a line.
fn refused(line: usize, why: Why) -> ReadError {
    ReadError::Refused(Refusal { line, why })
}

/// The refusal of a text without a line feed behind so many lines.
fn cut_off(lines: usize, rest: &[u8]) -> ReadError {
    let why = if rest.is_empty() {
        Why::NoSummary
    } else {
        Why::NoLineFeed
    };
    refused(lines.saturating_add(1), why)
}

/// The report of a text, or the first line that is refused. The lines of the report are those of the text, to the byte.
pub fn read(alloc: Global, text: &[u8]) -> Result<Report<'_>, ReadError>
    ensures { IfOk result (λ report. text.now ≡ report_text report.closed report.lines.items report.summary_text.now) }
{
    if text.is_empty() {
        return Err(refused(1, Why::Empty));
    }
    let Some((first, mut rest)) = cut(text, b'\n') else {
        return Err(refused(1, Why::NoLineFeed));
    };
    let Some(closed) = verdict_of(first) else {
        return Err(refused(1, Why::NoVerdict));
    };
    let mut report = Report::new(alloc, closed);
    let mut number = 1usize;
    while let Some((line, behind)) = cut(rest, b'\n') {
        number = number.saturating_add(1);
        if !is_printable(line) {
            return Err(refused(number, Why::NotText));
        }
        if let Some(summary) = summary_text(line) {
            report.end(number, summary, behind)?;
            return Ok(report);
        }
        report.take(number, line)?;
        rest = behind;
    }
    Err(cut_off(number, rest))
}
