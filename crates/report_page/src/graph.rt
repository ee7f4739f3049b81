//! A report as a graph for Graphviz.

use crate::named::write_labels;
use crate::words::verdict_word;
use marked_text::{Markup, Piece};
use no_memory::Memory;
use report_lines::{Cause, Report};
use report_program::{Link, Program, Site, Way};
use std::alloc::Global;
use symbol_lists::Names;

/// The graph of a report: a box for each straight stretch, with a row for each address, and an arrow for each edge that
/// leaves a stretch.
pub fn graph_of(alloc: Global, report: &Report<'_>, names: &Names<'_>) -> Result<Vec<u8>, Memory> {
    let program = Program::of(alloc, report)?;
    let mut graph = Markup::new(alloc);
    open_graph(&mut graph, report);
    boxes_of(&mut graph, names, &program);
    close(&mut graph);
    graph.finish()
}

/// What every graph begins with.
pub fn open_graph(graph: &mut Markup, report: &Report<'_>) {
    graph.put_all(&[
        Piece::Marks("digraph report {\n  graph [fontname=\"monospace\", labelloc=t, label=\""),
        verdict_word(report),
        Piece::Marks(
            "\"];\n  node [fontname=\"monospace\", shape=plain];\n  edge [fontname=\"monospace\", fontsize=10];\n",
        ),
    ])
}

/// What every graph ends with.
pub fn close(graph: &mut Markup) {
    graph.put("}\n")
}

/// What a box ends with.
const END: &str = "</table>>];\n";

/// The boxes and the arrows of a program.
pub fn boxes_of(graph: &mut Markup, names: &Names<'_>, program: &Program<'_>) {
    let mut is_first = true;
    for site in program.sites.values() {
        if site.head == site.pc {
            begin_box(graph, is_first, site.pc);
        }
        row(graph, names, site);
        is_first = false;
    }
    if !is_first {
        graph.put(END);
    }
    for site in program.sites.values() {
        arrows(graph, program, site);
    }
}

/// The end of the box in front, where there is one, and the begin of the one with this address.
fn begin_box(graph: &mut Markup, is_first: bool, head: u16) {
    graph.put_all(&[
        Piece::Marks(if is_first { "" } else { END }),
        Piece::Marks("  \""),
        Piece::Address(head),
        Piece::Marks(
            "\" [label=<<table border=\"1\" cellborder=\"0\" cellspacing=\"0\" cellpadding=\"3\">",
        ),
    ])
}

/// The row of an address.
fn row(graph: &mut Markup, names: &Names<'_>, site: &Site<'_>) {
    graph.put_all(&[
        Piece::Marks("<tr><td port=\""),
        Piece::Address(site.pc),
        Piece::Marks(if site.is_open() {
            "\" align=\"left\" bgcolor=\"#ffd9b3\">"
        } else {
            "\" align=\"left\">"
        }),
        Piece::Address(site.pc),
    ]);
    write_labels(graph, names, site.pc);
    graph.put_all(&[
        Piece::Marks(" "),
        match site.instr {
            Some(instr) => Piece::Text(instr.text),
            None => Piece::Marks("?"),
        },
    ]);
    for cause in site.causes.iter() {
        graph.put(match cause {
            Cause::Fetch => " (open: no instruction)",
            Cause::Targets(_) => " (open: too many targets)",
            Cause::Store(_) => " (open: may write the program)",
        });
    }
    graph.put("</td></tr>")
}

/// Writes the arrows of an address but for that inside its box.
fn arrows(graph: &mut Markup, program: &Program<'_>, site: &Site<'_>) {
    for link in site.goes.iter() {
        let head = match program.sites.get(&link.at) {
            Some(other) => Some(other.head),
            None => None,
        };
        // An edge inside a box goes to its next row.
        let is_inside = head == Some(site.head);
        if !(link.way == Way::Next && is_inside && site.pc < link.at) {
            arrow(graph, site, *link, head);
        }
    }
}

/// An arrow from a row of a box to an address, in a box or outside. One inside a box goes along its right side.
fn arrow(graph: &mut Markup, site: &Site<'_>, link: Link, head: Option<u16>) {
    let side = Piece::Marks(if head == Some(site.head) {
        "\":e"
    } else {
        "\""
    });
    graph.put_all(&[
        Piece::Marks("  \""),
        Piece::Address(site.head),
        Piece::Marks("\":\""),
        Piece::Address(site.pc),
        side,
        Piece::Marks(" -> \""),
    ]);
    match head {
        Some(head) => graph.put_all(&[
            Piece::Address(head),
            Piece::Marks("\":\""),
            Piece::Address(link.at),
            side,
            style_of(link.way),
        ]),
        None => graph.put_all(&[
            Piece::Address(link.at),
            Piece::Marks("\""),
            style_of(link.way),
        ]),
    }
}

/// How an arrow looks.
fn style_of(way: Way) -> Piece<'static> {
    Piece::Marks(match way {
        Way::Next => " [tooltip=\"next\"];\n",
        Way::Jump => " [tooltip=\"jump\", color=\"#0b57d0\"];\n",
        Way::Call => " [tooltip=\"call\", color=\"#7a3fc2\", label=\"call\"];\n",
        Way::Return => " [tooltip=\"return\", color=\"#7a3fc2\", style=dashed];\n",
        Way::Interrupt => " [tooltip=\"interrupt\", color=\"#b3261e\", label=\"interrupt\"];\n",
        Way::Resume => " [tooltip=\"resume\", color=\"#b3261e\", style=dashed];\n",
        Way::Plain => " [tooltip=\"way\", color=\"#66707a\", style=dotted];\n",
    })
}
