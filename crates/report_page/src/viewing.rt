//! The answer to the words and the report.

use crate::ask::{Ask, Asked, Labels, Lists, front_of};
use crate::call_graph::{calls_graph, function_graph};
use crate::diff::{diff_of, named_diff_of};
use crate::graph::graph_of;
use crate::page::page_of;
use ihex_read::{HexError, MOST_BYTES, Reader, Tail};
use image::{Image, Rules};
use no_memory::Memory;
use report_lines::{ReadError, Refusal, Report, read};
use report_program::foreign_instr;
use std::alloc::Global;
use symbol_lists::{Names, SymbolError, read_symbols};

/// Why a report isn't shown.
#[derive(Clone, Copy)]
pub enum ViewError {
    Refused(Refusal),
    /// The second of two reports.
    RefusedSecond(Refusal),
    /// A line of the first list of symbols.
    BadNames(SymbolError),
    /// One of the second list.
    BadSecondNames(SymbolError),
    /// A line of the image's text.
    BadImage(u32),
    /// The report's instruction there isn't the image's.
    Foreign(u16),
    /// No function begins there.
    NoFunction(u16),
    Memory,
}

impl From<ReadError> for ViewError {
    fn from(error: ReadError) -> ViewError {
        match error {
            ReadError::Refused(refusal) => ViewError::Refused(refusal),
            ReadError::Memory => ViewError::Memory,
        }
    }
}

impl From<Memory> for ViewError {
    fn from(_error: Memory) -> ViewError {
        ViewError::Memory
    }
}

impl From<HexError> for ViewError {
    fn from(error: HexError) -> ViewError {
        match error {
            HexError::Bad { line, .. } => ViewError::BadImage(line),
            HexError::Memory => ViewError::Memory,
        }
    }
}

/// What is written.
#[derive(Drop)]
pub struct Shown {
    pub text: Vec<u8>,
    /// Whether two reports differ.
    pub differs: bool,
}

/// A page, a graph, or what two reports differ in. The lists of symbols stand at the end of the text.
pub fn view(alloc: Global, asked: Asked<'_>, text: &[u8]) -> Result<Shown, ViewError> {
    match asked.lists {
        Lists::None => view_by(alloc, asked.what, text, &no_names(alloc)?),
        Lists::One(len) => {
            let (text, list) = cut_end(text, len);
            let names = names_of(alloc, list)?;
            match asked.what {
                Ask::Diff => named_diff(alloc, text, &names, &names),
                what => view_by(alloc, what, text, &names),
            }
        }
        Lists::Two(old, new) => {
            let (text, new) = cut_end(text, new);
            let (text, old) = cut_end(text, old);
            let names = names_of(alloc, old)?;
            let new_names = match names_of(alloc, new) {
                Err(ViewError::BadNames(error)) => return Err(ViewError::BadSecondNames(error)),
                answer => answer?,
            };
            match asked.what {
                Ask::Diff => named_diff(alloc, text, &names, &new_names),
                what => view_by(alloc, what, text, &names),
            }
        }
    }
}

/// The last bytes of a text, so many, and what stands in front of them.
fn cut_end(text: &[u8], len: usize) -> (&[u8], &[u8]) {
    text.split_at(text.len().saturating_sub(len))
}

fn no_names(alloc: Global) -> Result<Names<'static>, Memory> {
    Ok(Names::of(Vec::new(alloc))?)
}

/// The names of a list.
fn names_of(alloc: Global, list: &[u8]) -> Result<Names<'_>, ViewError> {
    if list.len() > symbol_lists::MOST_BYTES {
        return Err(ViewError::Memory);
    }
    match read_symbols(alloc, list) {
        Ok(list) => match Names::of(list) {
            Ok(names) => Ok(names),
            Err(_) => Err(ViewError::Memory),
        },
        Err(SymbolError::Memory) => Err(ViewError::Memory),
        Err(error) => Err(ViewError::BadNames(error)),
    }
}

/// A page, a graph, or what two reports differ in, with these names, but for the latter.
fn view_by(
    alloc: Global,
    ask: Ask<'_>,
    text: &[u8],
    names: &Names<'_>,
) -> Result<Shown, ViewError> {
    match ask {
        Ask::Html(labels) => Ok(alike(page(alloc, labels, text, names)?)),
        Ask::Dot => Ok(alike(graph_of(alloc, &read(alloc, text)?, names)?)),
        Ask::Calls => Ok(alike(calls_graph(alloc, &read(alloc, text)?, names)?)),
        Ask::Function(entry) => match function_graph(alloc, &read(alloc, text)?, names, entry)? {
            Some(graph) => Ok(alike(graph)),
            None => Err(ViewError::NoFunction(entry)),
        },
        Ask::Diff => diff(alloc, text),
    }
}

/// A text that isn't what reports differ in.
fn alike(text: Vec<u8>) -> Shown {
    Shown {
        text,
        differs: false,
    }
}

/// The page of a report. Where the labels name an image, its text stands behind the report.
fn page(
    alloc: Global,
    labels: Labels<'_>,
    text: &[u8],
    names: &Names<'_>,
) -> Result<Vec<u8>, ViewError> {
    if labels.image.is_none() {
        return Ok(page_of(alloc, &read(alloc, text)?, text, labels, None, names)?);
    }
    let (front, behind) = front_of(text);
    let report = read(alloc, front)?;
    let image = image_of(alloc, behind)?;
    if let Some(pc) = foreign_instr(&report, &image) {
        return Err(ViewError::Foreign(pc));
    }
    Ok(page_of(alloc, &report, front, labels, Some(&image), names)?)
}

/// The image of a text.
fn image_of(alloc: Global, text: &[u8]) -> Result<Image, ViewError> {
    if text.len() > MOST_BYTES {
        return Err(ViewError::BadImage(0));
    }
    let mut reader = Reader::new(alloc, Rules::Mcs51, Tail::Blank)?;
    reader.feed(text)?;
    Ok(reader.end()?)
}

/// The second of two reports.
fn read_second(alloc: Global, text: &[u8]) -> Result<Report<'_>, ViewError> {
    match read(alloc, text) {
        Ok(report) => Ok(report),
        Err(ReadError::Refused(refusal)) => Err(ViewError::RefusedSecond(refusal)),
        Err(ReadError::Memory) => Err(ViewError::Memory),
    }
}

/// What the two reports of a text differ in by names.
fn named_diff(
    alloc: Global,
    text: &[u8],
    old_names: &Names<'_>,
    new_names: &Names<'_>,
) -> Result<Shown, ViewError> {
    let (old_text, new_text) = front_of(text);
    let old = read(alloc, old_text)?;
    let new = read_second(alloc, new_text)?;
    Ok(named_diff_of(alloc, (&old, old_names), (&new, new_names))?)
}

/// What the two reports of a text differ in.
fn diff(alloc: Global, text: &[u8]) -> Result<Shown, ViewError> {
    let (old_text, new_text) = front_of(text);
    let old = read(alloc, old_text)?;
    let new = read_second(alloc, new_text)?;
    Ok(diff_of(alloc, (&old, old_text), (&new, new_text))?)
}
