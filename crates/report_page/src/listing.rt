//! The program by address.

use crate::named::{memory_of, write_labels};
use crate::opens::write_cause;
use crate::sets::write_set;
use crate::style::{COLUMNS, HEAD};
use crate::words::{noun, space_word};
use marked_text::{Markup, Piece};
use report_lines::{Access, Kind, Report};
use report_program::{Depths, Link, Program, Site, Way, behind};
use symbol_lists::Names;

/// How many rows stand in one section. A browser lays out only the sections that it shows.
const SECTION: usize = 256;

/// The program by address.
pub fn listing(page: &mut Markup, names: &Names<'_>, report: &Report<'_>, program: &Program<'_>) {
    page.put_all(&[Piece::Marks(HEAD), Piece::Marks(COLUMNS)]);
    let depths = Depths::of(report);
    let mut rows = 0usize;
    let mut front: Option<&Site<'_>> = None;
    for site in program.sites.values() {
        gap(page, report, front, site.pc);
        rows = rows.wrapping_add(1);
        if rows % SECTION == 0 {
            section(page);
        }
        row(page, names, site);
        details(page, names, site, depths);
        front = Some(site);
    }
    page.put("</table></section>\n")
}

/// The begin of a further section.
fn section(page: &mut Markup) {
    page.put_all(&[
        Piece::Marks("</table></section>\n<section><table class=v>"),
        Piece::Marks(COLUMNS),
    ])
}

/// The addresses between two rows, where there are some.
fn gap(page: &mut Markup, report: &Report<'_>, front: Option<&Site<'_>>, pc: u16) {
    let Some((first, from)) = end_of(front) else {
        return;
    };
    if from < first || from == pc {
        return;
    }
    if pc < from {
        return page.put(
            "<tr class=g><td colspan=7>The next instruction begins inside the one above.\n",
        );
    }
    let size = usize::from(pc.wrapping_sub(from));
    page.put_all(&[
        Piece::Marks("<tr class=g><td colspan=7>"),
        Piece::Address(from),
        Piece::Marks(" to "),
        Piece::Address(pc.wrapping_sub(1)),
        Piece::Marks(": "),
        Piece::Number(size),
        noun(size, " byte", " bytes"),
        Piece::Marks(if report.closed {
            " that never run\n"
        } else {
            " that the analysis didn't come to\n"
        }),
    ])
}

/// The address of an instruction, and the one behind it.
fn end_of(site: Option<&Site<'_>>) -> Option<(u16, u16)> {
    let site = site?;
    Some((site.pc, behind(&site.instr?)))
}

/// The classes of a row.
fn class_of(site: &Site<'_>) -> Piece<'static> {
    Piece::Marks(match (site.head == site.pc, site.is_open()) {
        (false, false) => "><th scope=row>",
        (true, false) => " class=s><th scope=row>",
        (false, true) => " class=o><th scope=row>",
        (true, true) => " class=\"s o\"><th scope=row>",
    })
}

/// The row of an address up to its ways.
fn row(page: &mut Markup, names: &Names<'_>, site: &Site<'_>) {
    page.put_all(&[
        Piece::Marks("<tr id="),
        Piece::Address(site.pc),
        class_of(site),
        Piece::Link(site.pc),
    ]);
    write_labels(page, names, site.pc);
    match site.instr {
        Some(instr) => page.put_all(&[
            Piece::Marks("<td class=b>"),
            Piece::Text(instr.bytes),
            Piece::Marks("<td class=t>"),
            Piece::Text(instr.text),
        ]),
        None => page.put("<td><td><em>no instruction in the report</em>"),
    }
}

/// The rest of the row, and why the site is open.
fn details(page: &mut Markup, names: &Names<'_>, site: &Site<'_>, depths: Option<Depths>) {
    page.put("<td class=w>");
    links(page, names, &site.goes, "next ");
    page.put("<td class=w>");
    links(page, names, &site.comes, "above ");
    accesses(page, names, site);
    stack(page, site, depths);
    causes(page, names, site)
}

/// The class and the words of a way. A neighbour has a word of its own in either case.
fn words_of(way: Way, neighbour: &str) -> (&'static str, &str) {
    match way {
        Way::Next => ("n", neighbour),
        Way::Jump => ("j", "jump "),
        Way::Call => ("l", "call "),
        Way::Return => ("r", "return "),
        Way::Interrupt => ("i", "interrupt "),
        Way::Resume => ("u", "resume "),
        Way::Plain => ("p", ""),
    }
}

/// The ways to other addresses, or from them.
fn links(page: &mut Markup, names: &Names<'_>, links: &Vec<Link>, neighbour: &str) {
    for link in links.iter() {
        let (class, words) = words_of(link.way, neighbour);
        page.put_all(&[
            Piece::Marks("<a class="),
            Piece::Marks(class),
            Piece::Marks(" href=#"),
            Piece::Address(link.at),
            Piece::Marks("><i>"),
            Piece::Marks(words),
            Piece::Marks("</i>"),
            Piece::Address(link.at),
            Piece::Marks("</a>"),
        ]);
        if link.way != Way::Next {
            write_labels(page, names, link.at);
        }
        page.put(" ");
    }
}

/// The accesses of a site.
fn accesses(page: &mut Markup, names: &Names<'_>, site: &Site<'_>) {
    page.put("<td class=m>");
    for access in site.accesses.iter() {
        write_access(page, names, access);
    }
}

/// One access.
fn write_access(page: &mut Markup, names: &Names<'_>, access: &Access<'_>) {
    page.put_all(&[
        Piece::Marks(match access.kind {
            Kind::ReadOne => "<span><i>reads 1 </i>",
            Kind::ReadTwo => "<span><i>reads 2 </i>",
            Kind::WriteOne => "<span><i>writes 1 </i>",
            Kind::WriteTwo => "<span><i>writes 2 </i>",
        }),
        space_word(access.space),
    ]);
    write_set(page, &access.at, Some((names, memory_of(access.space))));
    page.put("</span> ")
}

/// The stack pointer's values, behind a bar of the depths.
fn stack(page: &mut Markup, site: &Site<'_>, depths: Option<Depths>) {
    page.put("<td class=k>");
    if let Some(depths) = depths {
        bar(page, depths, depths.of_sets(&site.stacks).unwrap_or((0, 0)));
    }
    let mut is_first = true;
    for set in site.stacks.iter() {
        if !is_first {
            page.put(", ");
        }
        is_first = false;
        write_set(page, set, None);
    }
    page.put("\n")
}

/// A bar up to the greatest depth, where that isn't 0.
fn bar(page: &mut Markup, depths: Depths, (least, most): (u16, u16)) {
    let (near, far) = (depths.share(least), depths.share(most));
    if far == 0 {
        return;
    }
    page.put_all(&[
        Piece::Marks("<span class=d><i style=width:"),
        Piece::Number(near),
        Piece::Marks("%></i>"),
    ]);
    if near < far {
        page.put_all(&[
            Piece::Marks("<i style=width:"),
            Piece::Number(far.wrapping_sub(near)),
            Piece::Marks("%></i>"),
        ]);
    }
    page.put("</span>")
}

/// Why a site is open.
fn causes(page: &mut Markup, names: &Names<'_>, site: &Site<'_>) {
    for cause in site.causes.iter() {
        page.put("<tr class=y><td colspan=7>Open. ");
        write_cause(page, names, cause);
        page.put("\n");
    }
}
