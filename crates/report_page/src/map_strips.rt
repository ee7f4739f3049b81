//! The picture of a memory.

use crate::named::{BOLD, Marks, PLAIN, memory_of, write_names};
use crate::words::noun;
use marked_text::{Markup, Piece};
use no_memory::Memory;
use report_lines::Space;
use report_program::{Map, Part, USES, Use};
use std::alloc::Global;
use symbol_lists::Names;

/// How many unused bytes end an area.
const GAP: usize = 64;

/// How many ranges are listed.
const MOST_RANGES: usize = 48;

/// The memories of a chip, each as a picture and as a table.
pub fn memories(
    alloc: Global,
    page: &mut Markup,
    names: &Names<'_>,
    maps: &Vec<Map>,
    has_image: bool,
) -> Result<(), Memory> {
    page.put(
        "<h2 id=map>Map</h2>\n<p>Each strip has its own scale, from its first address to its last.\n",
    );
    for map in maps.iter() {
        let parts = map.parts(alloc)?;
        if !parts.is_empty() {
            memory(page, names, map, &parts);
            if has_image {
                unreached(page, names, map.space, &parts);
            }
        }
    }
    Ok(())
}

/// The name of a memory.
fn name_of(space: Space) -> Piece<'static> {
    Piece::Marks(match space {
        Space::Mem => "The memory",
        Space::Ram => "Internal RAM",
        Space::Sfr => "Special function registers",
        Space::Xram => "External RAM",
        Space::Code => "Code memory",
    })
}

/// One memory.
fn memory(page: &mut Markup, names: &Names<'_>, map: &Map, parts: &Vec<Part>) {
    page.put_all(&[
        Piece::Marks("<figure><figcaption>"),
        name_of(map.space),
        Piece::Marks(": "),
    ]);
    legend(page, map);
    page.put("</figcaption>\n");
    areas(page, names, map.space, parts);
    if map.unbounded > 0 {
        page.put_all(&[
            Piece::Marks("<p>Not in the picture: "),
            Piece::Number(map.unbounded),
            noun(map.unbounded, " access", " accesses"),
            Piece::Marks(" that may be at any address.\n"),
        ]);
    }
    page.put("</figure>\n")
}

/// How many bytes have each use.
fn legend(page: &mut Markup, map: &Map) {
    for what in USES.iter() {
        let bytes = map.count(*what);
        if bytes > 0 {
            page.put_all(&[
                Piece::Marks(
                    "<span class=q><svg viewBox=\"0 0 10 10\" aria-hidden=true><rect width=10 height=10 class=",
                ),
                class_of(*what),
                Piece::Marks(" /></svg> "),
                Piece::Marks(what.words()),
                Piece::Marks(": "),
                Piece::Number(bytes),
                noun(bytes, " byte", " bytes"),
                Piece::Marks("</span> "),
            ]);
        }
    }
}

/// The class that colours a use.
fn class_of(what: Use) -> Piece<'static> {
    Piece::Marks(match what {
        Use::None => "z0",
        Use::Code => "z1",
        Use::Data => "z2",
        Use::Unreached => "z3",
        Use::Accessed => "z4",
        Use::Stack => "z5",
    })
}

/// An address that may be the one behind the last, with four digits.
fn address(at: usize) -> Piece<'static> {
    Piece::Address((at & 0xFFFF) as u16)
}

/// The strips of a memory, each for an area whose bytes lie close together.
fn areas(page: &mut Markup, names: &Names<'_>, space: Space, parts: &Vec<Part>) {
    let mut first = 0usize;
    for k in 0..parts.len() {
        let is_last = k + 1 == parts.len() || parts[k + 1].from.saturating_sub(parts[k].to) >= GAP;
        if is_last && first <= k {
            strip(page, names, space, &parts[first..k + 1]);
            first = k + 1;
        }
    }
}

/// The strip of an area.
fn strip(page: &mut Markup, names: &Names<'_>, space: Space, parts: &[Part]) {
    let (Some(first), Some(last)) = (parts.first(), parts.last()) else {
        return;
    };
    let (from, to) = (first.from, last.to);
    let size = to.saturating_sub(from).max(1);
    page.put_all(&[
        Piece::Marks("<div class=strip><span>"),
        address(from),
        Piece::Marks(" to "),
        address(to.wrapping_sub(1)),
        Piece::Marks(
            "</span><svg viewBox=\"0 0 1000 20\" preserveAspectRatio=none role=img aria-label=\"",
        ),
        Piece::Number(size),
        noun(size, " byte", " bytes"),
        Piece::Marks("\">"),
    ]);
    for part in parts {
        bar(page, part, from, size);
        title(page, names, space, part);
    }
    page.put("</svg></div>\n")
}

/// So many bytes in parts of a thousand of a size.
fn share(bytes: usize, size: usize) -> usize {
    bytes.wrapping_mul(1000) / size.max(1)
}

/// The bar of a part, in a strip that begins there and has so many bytes.
fn bar(page: &mut Markup, part: &Part, from: usize, size: usize) {
    let width = share(part.to.saturating_sub(part.from), size);
    page.put_all(&[
        Piece::Marks("<rect x="),
        Piece::Number(share(part.from.saturating_sub(from), size)),
        Piece::Marks(" width="),
        Piece::Number(width.max(2)),
        Piece::Marks(" height=20 class="),
        class_of(part.what),
        Piece::Marks(">"),
    ])
}

/// What is said of a part.
fn title(page: &mut Markup, names: &Names<'_>, space: Space, part: &Part) {
    page.put_all(&[
        Piece::Marks("<title>"),
        address(part.from),
        Piece::Marks(" to "),
        address(part.to.wrapping_sub(1)),
    ]);
    part_names(page, names, space, part, PLAIN);
    page.put_all(&[
        Piece::Marks(": "),
        Piece::Marks(part.what.words()),
        Piece::Marks("</title></rect>"),
    ])
}

/// The names of the first address of a part.
fn part_names(page: &mut Markup, names: &Names<'_>, space: Space, part: &Part, marks: Marks) {
    let first = (part.from & 0xFFFF) as u16;
    write_names(page, names, memory_of(space), first, marks)
}

/// The ranges of the image that nothing reaches.
fn unreached(page: &mut Markup, names: &Names<'_>, space: Space, parts: &Vec<Part>) {
    let mut listed = 0usize;
    for part in parts.iter() {
        if part.what == Use::Unreached {
            if listed < MOST_RANGES {
                range(page, part, listed == 0);
                part_names(page, names, space, part, BOLD);
            }
            listed = listed.saturating_add(1);
        }
    }
    if listed > MOST_RANGES {
        let more = listed.wrapping_sub(MOST_RANGES);
        page.put_all(&[
            Piece::Marks(", and "),
            Piece::Number(more),
            noun(more, " range", " ranges"),
            Piece::Marks(" more"),
        ]);
    }
    if listed > 0 {
        page.put(".\n");
    }
}

/// A range that nothing reaches.
fn range(page: &mut Markup, part: &Part, is_first: bool) {
    page.put_all(&[
        Piece::Marks(if is_first {
            "<p>In the image, and neither run nor read by what this page has: <code>"
        } else {
            ", <code>"
        }),
        address(part.from),
        Piece::Marks(" to "),
        address(part.to.wrapping_sub(1)),
        Piece::Marks("</code>"),
    ])
}
