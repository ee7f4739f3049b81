//! The open sites of a report.

use crate::named::write_link;
use crate::sets::write_set;
use crate::style::{FETCH_ADVICE, STORE_ADVICE, TARGETS_ADVICE};
use marked_text::{Markup, Piece};
use report_lines::{Cause, Line, Open, Report, Set};
use report_program::Counts;
use symbol_lists::{Names, Place};

/// The open sites by their causes: first the stores, since what follows one may be its fault.
pub fn open_sites(page: &mut Markup, names: &Names<'_>, report: &Report<'_>, counts: Counts) {
    if counts.opens == 0 {
        return;
    }
    page.put("<h2 id=open>Open sites</h2>\n");
    sites_with(page, names, report, (b'S', STORE_ADVICE));
    sites_with(page, names, report, (b'T', TARGETS_ADVICE));
    sites_with(page, names, report, (b'F', FETCH_ADVICE))
}

/// What a cause means, and what to do, with the open sites that have it.
fn sites_with(
    page: &mut Markup,
    names: &Names<'_>,
    report: &Report<'_>,
    (letter, advice): (u8, &str),
) {
    let mut is_first = true;
    for line in report.lines.iter() {
        if let Line::Open(open) = line
            && letter_of(&open.cause) == letter
        {
            if is_first {
                page.put_all(&[Piece::Marks(advice), Piece::Marks("<ul>\n")]);
            }
            is_first = false;
            site(page, names, open);
        }
    }
    if !is_first {
        page.put("</ul>\n");
    }
}

/// One site.
fn site(page: &mut Markup, names: &Names<'_>, open: &Open<'_>) {
    page.put("<li>");
    write_link(page, names, open.pc);
    page.put(" ");
    write_cause(page, names, &open.cause);
    page.put("\n")
}

/// The first letter of a cause.
fn letter_of(cause: &Cause<'_>) -> u8 {
    match cause {
        Cause::Fetch => b'F',
        Cause::Store(_) => b'S',
        Cause::Targets(_) => b'T',
    }
}

/// Why the analysis stops, in words.
pub fn write_cause(page: &mut Markup, names: &Names<'_>, cause: &Cause<'_>) {
    match cause {
        Cause::Fetch => page.put(
            "Control can come here, and no instruction stands here: bytes of it are missing, or no instruction begins so.",
        ),
        Cause::Targets(set) => with_set(
            page,
            "Control can go from here to more addresses than the analysis follows: ",
            set,
            (names, Place::Code),
        ),
        Cause::Store(set) => with_set(
            page,
            "A write here may change the program itself. It may go to: ",
            set,
            (names, Place::Any),
        ),
    }
}

/// A sentence that ends with a set.
fn with_set(page: &mut Markup, words: &str, set: &Set<'_>, naming: (&Names<'_>, Place)) {
    page.put(words);
    write_set(page, set, Some(naming));
    page.put(".")
}
