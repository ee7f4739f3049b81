//! A report as one page of HTML.

use crate::ask::Labels;
use crate::functions_table::{functions_table, vector_at};
use crate::listing::listing;
use crate::map_strips::memories;
use crate::memory_table::memory_tables;
use crate::named::write_link;
use crate::opens::open_sites;
use crate::style::{NOTES, STYLE};
use crate::words::{noun, verdict_word};
use image::Image;
use marked_text::{Markup, Piece};
use no_memory::Memory;
use report_lines::{Line, Report};
use report_program::{Accesses, Counts, Depths, Functions, Program, Roots, maps_of};
use std::alloc::Global;
use symbol_lists::Names;

/// The page of a report, whose text this is, and of its image, where that is there.
pub fn page_of(
    alloc: Global,
    report: &Report<'_>,
    text: &[u8],
    labels: Labels<'_>,
    image: Option<&Image>,
    names: &Names<'_>,
) -> Result<Vec<u8>, Memory> {
    let program = Program::of(alloc, report)?;
    let mut page = Markup::new(alloc);
    head(&mut page, report, labels);
    overview(&mut page, names, report);
    summaries(alloc, &mut page, names, report, &program, image)?;
    listing(&mut page, names, report, &program);
    lines(&mut page, text);
    page.finish()
}

/// The verdict, how many lines there are, and the open sites.
fn overview(page: &mut Markup, names: &Names<'_>, report: &Report<'_>) {
    let counts = Counts::of(report);
    verdict(page, report, counts);
    facts(page, names, report, counts);
    open_sites(page, names, report, counts)
}

/// What the lines say of functions and of memory.
fn summaries(
    alloc: Global,
    page: &mut Markup,
    names: &Names<'_>,
    report: &Report<'_>,
    program: &Program<'_>,
    image: Option<&Image>,
) -> Result<(), Memory> {
    let depths = Depths::of(report);
    // The MCS-51 has no vectors in its image.
    let vectors = if report.grows_up() { None } else { image };
    let functions = Functions::of(alloc, program, report, reset_of(vectors))?;
    functions_table(alloc, page, names, report, program, &functions, vectors)?;
    let roots = Roots::of(alloc, &functions)?;
    let accesses = Accesses::of(alloc, report, depths, &roots)?;
    memory_tables(page, names, &functions, &accesses);
    let maps = maps_of(alloc, report, image)?;
    memories(alloc, page, names, &maps, image.is_some())
}

/// Where the program of an image of the MSP430 begins.
fn reset_of(image: Option<&Image>) -> Option<u16> {
    vector_at(image?, 0xFFFE)
}

/// How to read a page, and the lines of the report as they are.
fn lines(page: &mut Markup, text: &[u8]) {
    page.put_all(&[
        Piece::Marks(NOTES),
        Piece::Marks(
            "<h2 id=lines>The report</h2>\n<details><summary>Its lines</summary>\n<pre>\n",
        ),
        Piece::Text(text),
        Piece::Marks("</pre>\n</details>\n</main>\n</html>\n"),
    ])
}

/// The title, and where the report is from.
fn head(page: &mut Markup, report: &Report<'_>, labels: Labels<'_>) {
    page.put_all(&[
        Piece::Marks(
            "<!DOCTYPE html>\n<html lang=en>\n<meta charset=utf-8>\n<meta name=viewport content=\"width=device-width,initial-scale=1\">\n<title>",
        ),
        verdict_word(report),
        Piece::Marks(": "),
        Piece::Text(labels.image.unwrap_or("firmware report").as_bytes()),
        Piece::Marks("</title>\n<style>\n"),
        Piece::Marks(STYLE),
        Piece::Marks("</style>\n<main>\n<h1>Firmware report"),
    ]);
    label(page, " of <b>", labels.image, "</b>");
    page.put("</h1>\n");
    let end = "</code>\n";
    label(
        page,
        "<p class=of>SHA-256 of the image: <code>",
        labels.sum,
        end,
    );
    label(page, "<p class=of>Analysed by: <code>", labels.words, end);
    label(page, "<p class=of>Version: <code>", labels.version, end)
}

/// A text between marks, where there is one.
fn label(page: &mut Markup, front: &str, text: Option<&str>, end: &str) {
    match text {
        Some(text) => page.put_all(&[
            Piece::Marks(front),
            Piece::Text(text.as_bytes()),
            Piece::Marks(end),
        ]),
        None => {}
    }
}

/// What the verdict says.
fn verdict(page: &mut Markup, report: &Report<'_>, counts: Counts) {
    if report.closed {
        return page.put(
            "<div class=verdict><b>CLOSED</b>\n<p>The analysis is complete. Whatever the inputs are and whenever interrupts come, the program runs only the instructions on this page, goes only along the ways shown, reads and writes only at the addresses shown, and its stack pointer has only the values shown.\n<p>This holds from reset on, for the chip as the analyser's documents define it.\n</div>\n",
        );
    }
    page.put_all(&[
        Piece::Marks(
            "<div class=\"open verdict\"><b>OPEN</b>\n<p>The analysis isn't complete. It met its limits at ",
        ),
        Piece::Number(counts.opens),
        noun(counts.opens, " site", " sites"),
        Piece::Marks(
            ", and what the program does from there on isn't all on this page. So nothing on this page holds for the whole program yet: other code may run, and the stack may grow further.\n</div>\n",
        ),
    ])
}

/// The stack's extreme, and how many lines there are.
fn facts(page: &mut Markup, names: &Names<'_>, report: &Report<'_>, counts: Counts) {
    page.put(if report.grows_up() {
        "<dl>\n<div><dt>Highest stack pointer<dd>"
    } else {
        "<dl>\n<div><dt>Lowest stack pointer<dd>"
    });
    extreme(page, names, report);
    unknown_places(page, names, report);
    page.put_all(&[
        Piece::Marks("</div>\n<div><dt>Instructions<dd>"),
        Piece::Number(counts.instrs),
        Piece::Marks("</div>\n<div><dt>Ways<dd>"),
        Piece::Number(counts.edges),
        Piece::Marks("</div>\n<div><dt>Memory accesses<dd>"),
        Piece::Number(counts.accesses),
        Piece::Marks("</div>\n<div><dt>Stack lines<dd>"),
        Piece::Number(counts.stacks),
        Piece::Marks("</div>\n<div><dt>Open sites<dd>"),
        Piece::Number(counts.opens),
        Piece::Marks("</div>\n</dl>\n"),
    ])
}

/// A value of the stack pointer with its digits.
fn pointer(report: &Report<'_>, value: u16) -> Piece<'static> {
    if report.grows_up() {
        Piece::Byte((value & 0xFF) as u8)
    } else {
        Piece::Address(value)
    }
}

/// The stack pointer's extreme, and where it has it.
fn extreme(page: &mut Markup, names: &Names<'_>, report: &Report<'_>) {
    let Some(depths) = Depths::of(report) else {
        return page.put("not known");
    };
    page.put_all(&[
        pointer(report, depths.extreme),
        Piece::Marks(" <small>"),
        Piece::Number(usize::from(depths.most())),
        Piece::Marks(if depths.grows_up {
            " bytes above "
        } else {
            " bytes below "
        }),
        pointer(report, depths.top),
    ]);
    if let Some(place) = depths.deepest_place(report) {
        page.put(", first at ");
        write_link(page, names, place);
    }
    page.put("</small>")
}

/// At how many places the stack pointer can have any value.
fn unknown_places(page: &mut Markup, names: &Names<'_>, report: &Report<'_>) {
    let count = report.summary.whole;
    if count == 0 {
        return;
    }
    page.put_all(&[
        Piece::Marks("<small>At "),
        Piece::Number(count),
        noun(count, " place", " places"),
        Piece::Marks(" it can have any value, and isn't counted here"),
    ]);
    if let Some(place) = unknown_place(report) {
        page.put(": ");
        write_link(page, names, place);
    }
    page.put("</small>")
}

/// The first place where the stack pointer can have any value.
fn unknown_place(report: &Report<'_>) -> Option<u16> {
    for line in report.lines.iter() {
        if let Line::Stack(stack) = line
            && stack.at.is_whole()
        {
            return Some(stack.pc);
        }
    }
    None
}
