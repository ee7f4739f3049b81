//! Graphs of calls, and of one function.

use crate::graph::{boxes_of, close, open_graph};
use crate::named::write_labels;
use marked_text::{Markup, Piece};
use no_memory::Memory;
use report_lines::Report;
use report_program::{Function, Functions, Kind, Program, Site, Total, Way};
use std::alloc::Global;
use std::collections::BTreeSet;
use symbol_lists::Names;

/// The graph of calls: a box for each function, and an arrow for each that another one calls or goes on in. Interrupts have
/// arrows from the functions in which they come.
pub fn calls_graph(
    alloc: Global,
    report: &Report<'_>,
    names: &Names<'_>,
) -> Result<Vec<u8>, Memory> {
    let program = Program::of(alloc, report)?;
    let functions = Functions::of(alloc, &program, report, None)?;
    let mut graph = Markup::new(alloc);
    open_graph(&mut graph, report);
    for function in functions.by_entry.values() {
        node(&mut graph, names, function);
    }
    for function in functions.by_entry.values() {
        calls(alloc, &mut graph, function)?;
        interrupts(alloc, &mut graph, &program, function)?;
    }
    close(&mut graph);
    graph.finish()
}

/// How a function is begun.
fn begin_of(kind: Kind) -> Piece<'static> {
    Piece::Marks(match kind {
        Kind::Reset => " reset",
        Kind::Handler => " interrupts",
        Kind::Called => "",
    })
}

/// The box of a function, with its stack.
fn node(graph: &mut Markup, names: &Names<'_>, function: &Function) {
    graph.put_all(&[
        Piece::Marks("  \""),
        Piece::Address(function.entry),
        Piece::Marks("\" [shape=box, label=<"),
        Piece::Address(function.entry),
    ]);
    write_labels(graph, names, function.entry);
    graph.put_all(&[begin_of(function.kind)]);
    match function.total {
        Total::Known(total) => graph.put_all(&[
            Piece::Marks("<br/>stack "),
            Piece::Number(usize::from(total)),
            Piece::Marks(">];\n"),
        ]),
        Total::Unknown => graph.put("<br/>stack not known>];\n"),
        Total::Recursive => graph.put("<br/>recursive>];\n"),
    }
}

/// An arrow between two boxes.
fn arrow(graph: &mut Markup, from: u16, to: u16, style: &str) {
    graph.put_all(&[
        Piece::Marks("  \""),
        Piece::Address(from),
        Piece::Marks("\" -> \""),
        Piece::Address(to),
        Piece::Marks("\""),
        Piece::Marks(style),
    ])
}

/// The arrows to the functions in which one goes on, each once.
fn calls(alloc: Global, graph: &mut Markup, function: &Function) -> Result<(), Memory> {
    let mut seen = BTreeSet::new(alloc);
    for call in function.calls.iter() {
        if seen.insert(call.to)? {
            let style = if call.is_jump {
                " [tooltip=\"jump\", color=\"#0b57d0\"];\n"
            } else {
                " [tooltip=\"call\", color=\"#7a3fc2\"];\n"
            };
            arrow(graph, function.entry, call.to, style);
        }
    }
    Ok(())
}

/// The arrows to the handlers of the interrupts that come in a function, each once.
fn interrupts(
    alloc: Global,
    graph: &mut Markup,
    program: &Program<'_>,
    function: &Function,
) -> Result<(), Memory> {
    let mut seen = BTreeSet::new(alloc);
    for pc in function.body.iter() {
        if let Some(site) = program.sites.get(pc) {
            interrupts_at(graph, function.entry, site, &mut seen)?;
        }
    }
    Ok(())
}

/// The arrows to the handlers of the interrupts that come at a site, but for those that are there.
fn interrupts_at(
    graph: &mut Markup,
    entry: u16,
    site: &Site<'_>,
    seen: &mut BTreeSet<u16>,
) -> Result<(), Memory> {
    for link in site.goes.iter() {
        if link.way == Way::Interrupt && seen.insert(link.at)? {
            let style = " [tooltip=\"interrupt\", color=\"#b3261e\", style=dashed];\n";
            arrow(graph, entry, link.at, style);
        }
    }
    Ok(())
}

/// The graph of the instructions of one function, where one begins there.
pub fn function_graph(
    alloc: Global,
    report: &Report<'_>,
    names: &Names<'_>,
    entry: u16,
) -> Result<Option<Vec<u8>>, Memory> {
    let mut program = Program::of(alloc, report)?;
    let functions = Functions::of(alloc, &program, report, None)?;
    let Some(function) = functions.by_entry.get(&entry) else {
        return Ok(None);
    };
    program.keep(function)?;
    let mut graph = Markup::new(alloc);
    open_graph(&mut graph, report);
    boxes_of(&mut graph, names, &program);
    close(&mut graph);
    Ok(Some(graph.finish()?))
}
