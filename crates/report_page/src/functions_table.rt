//! The table of functions.

use crate::named::write_link;
use crate::words::noun;
use image::Image;
use marked_text::{Markup, Piece};
use no_memory::Memory;
use report_lines::Report;
use report_program::{Depths, Function, Functions, Kind, Program, Step, Total, Way};
use std::alloc::Global;
use symbol_lists::Names;

/// The functions with their stack, and the way to the deepest place.
pub fn functions_table(
    alloc: Global,
    page: &mut Markup,
    names: &Names<'_>,
    report: &Report<'_>,
    program: &Program<'_>,
    functions: &Functions,
    image: Option<&Image>,
) -> Result<(), Memory> {
    let callers = functions.callers(alloc)?;
    page.put("<h2 id=functions>Functions</h2>\n");
    worst_path(alloc, page, names, report, program, functions)?;
    page.put(
        "<div class=scroll><table class=f><caption>Where calls, interrupts and the reset lead, with the bytes of stack that each takes: by itself, and with all that it calls. Interrupts that come in between aren't counted.</caption>\n<thead><tr><th scope=col>Function<th scope=col>Begun by<th scope=col>Instructions<th scope=col>Own stack<th scope=col>With calls<th scope=col>Calls<th scope=col>Called at</thead>\n<tbody>\n",
    );
    for function in functions.by_entry.values() {
        begin_row(page, names, function, image);
        end_row(page, names, function, callers.get(&function.entry));
    }
    page.put("</table></div>\n");
    Ok(())
}

/// What a function's own stack is.
fn own_stack(function: &Function) -> Piece<'static> {
    match function.own {
        Some(own) => Piece::Number(usize::from(own)),
        None => Piece::Marks("not known"),
    }
}

/// What stack a function takes with its calls.
fn total_stack(function: &Function) -> Piece<'static> {
    match function.total {
        Total::Known(total) => Piece::Number(usize::from(total)),
        Total::Unknown => Piece::Marks("not known"),
        Total::Recursive => Piece::Marks("recursive: see the stack pointer"),
    }
}

/// A function, and what it is begun by.
fn begin_row(page: &mut Markup, names: &Names<'_>, function: &Function, image: Option<&Image>) {
    page.put("<tr><th scope=row>");
    write_link(page, names, function.entry);
    page.put(match function.kind {
        Kind::Reset => "<td>reset",
        Kind::Handler => "<td>interrupts",
        Kind::Called => "<td>calls",
    });
    match image {
        Some(image) if function.kind == Kind::Handler => { vectors(page, image, function.entry) }
        _ => {}
    }
}

/// What a function takes, calls, and where it is called.
fn end_row(page: &mut Markup, names: &Names<'_>, function: &Function, callers: Option<&Vec<u16>>) {
    page.put_all(&[
        Piece::Marks("<td>"),
        Piece::Number(function.body.len()),
        Piece::Marks("<td>"),
        own_stack(function),
        Piece::Marks("<td>"),
        total_stack(function),
        Piece::Marks("<td class=a>"),
    ]);
    called(page, names, function);
    page.put("<td class=a>");
    if let Some(sites) = callers {
        for site in sites.iter() {
            write_link(page, names, *site);
            page.put(" ");
        }
    }
    page.put("\n")
}

/// The vectors of the MSP430's image that have an address.
fn vectors(page: &mut Markup, image: &Image, entry: u16) {
    for k in 0..15u16 {
        let at = k.wrapping_mul(2).wrapping_add(0xFFE0);
        if vector_at(image, at) == Some(entry) {
            page.put_all(&[Piece::Marks(" "), Piece::Address(at)]);
        }
    }
}

/// The address in a vector of the MSP430's image.
pub fn vector_at(image: &Image, at: u16) -> Option<u16> {
    let (low, high) = (image.byte(at)?, image.byte(at.wrapping_add(1))?);
    Some(
        u16::from(high)
            .wrapping_mul(256)
            .wrapping_add(u16::from(low & 0xFE)),
    )
}

/// The functions that one calls, each once.
fn called(page: &mut Markup, names: &Names<'_>, function: &Function) {
    for k in 0..function.calls.len() {
        let to = function.calls[k].to;
        if !function.calls[..k].iter().any(|other| other.to == to) {
            write_link(page, names, to);
            page.put(" ");
        }
    }
}

/// How many steps of a way are told.
const MOST_STEPS: usize = 24;

/// The way to the place where the stack is deepest, in words.
fn worst_path(
    alloc: Global,
    page: &mut Markup,
    names: &Names<'_>,
    report: &Report<'_>,
    program: &Program<'_>,
    functions: &Functions,
) -> Result<(), Memory> {
    let Some(depths) = Depths::of(report) else {
        return Ok(());
    };
    let Some(place) = depths.deepest_place(report) else {
        return Ok(());
    };
    let bytes = usize::from(depths.most());
    page.put_all(&[
        Piece::Marks("<p>The stack is deepest, "),
        Piece::Number(bytes),
        noun(bytes, " byte", " bytes"),
        Piece::Marks(", first at "),
    ]);
    write_link(page, names, place);
    let steps = functions.path_to(alloc, program, depths, place)?;
    path(page, names, functions, &steps);
    Ok(())
}

/// The steps of a way, from the deepest place upward.
fn path(page: &mut Markup, names: &Names<'_>, functions: &Functions, steps: &Vec<Step>) {
    for step in steps.iter().take(MOST_STEPS) {
        path_step(page, names, functions, *step);
    }
    if steps.len() > MOST_STEPS {
        let more = steps.len().wrapping_sub(MOST_STEPS);
        page.put_all(&[
            Piece::Marks(", and so on up "),
            Piece::Number(more),
            noun(more, " more step", " more steps"),
        ]);
    }
    page.put(".\n")
}

/// A step of the way.
fn path_step(page: &mut Markup, names: &Names<'_>, functions: &Functions, step: Step) {
    match step.way {
        Way::Interrupt => {
            page.put(", begun by an interrupt at ");
            write_link(page, names, step.at)
        }
        Way::Call => {
            page.put(", called at ");
            write_link(page, names, step.at)
        }
        _ => {}
    }
    page.put_all(&[words_for(functions, step.function)]);
    write_link(page, names, step.function)
}

/// What stands in front of a function's address.
fn words_for(functions: &Functions, entry: u16) -> Piece<'static> {
    let kind = match functions.by_entry.get(&entry) {
        Some(function) => function.kind,
        None => Kind::Called,
    };
    Piece::Marks(match kind {
        Kind::Reset => " in the program that a reset begins at ",
        Kind::Handler => " in the handler ",
        Kind::Called => " in the function ",
    })
}
