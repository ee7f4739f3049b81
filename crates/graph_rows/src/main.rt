//! Rows of graphs: the standard output says how many lines of the standard input hold, and which don't.
//!
//! - `graph GRAPH > ANSWER`: `yes` where each edge leads to a vertex, else `no`, as the others answer too.
//! - `reached GRAPH | FROM | STOPS > VERTICES`: those that are reached.
//! - `circle GRAPH | STOPS > VERTICES`: the first circle without a stop, or `none`.
//! - `longest GRAPH | STOPS | COSTS > COSTS`: what the dearest legs cost, or `circle` where a circle has no stop.
//! - `many reached ..`, `many circle ..` and `many longest ..`: how many vertices that answer has, or what the dearest leg from
//!   vertex 0 costs.
//!
//! A graph is how many vertices it has and its edges, as `3 0-1 1-2`, or a name and how many vertices: `chain` (each leads to the
//! next), `ring` (the last one to the first, too), `dense` (each to all behind it), `whole` (each to all). One cost is that of each
//! vertex.
#![tactic(auto)]

mod answers;
mod graphs;

ghost use Rattle.graph_walks.specs.Graphs.{IsGraph};

use crate::answers::{circle_in, longest_in, reached_in};
use crate::graphs::graph_of;
use graph_walks::is_graph;
use no_memory::Memory;
use row_parts::tell;
use std::alloc::{AllocError, Global};
use std::io;

/// What is answered of a graph.
fn answer(
    alloc: Global,
    kind: &str,
    graph: &[Vec<usize>],
    first: &str,
    second: &str,
    many: bool,
) -> Result<Option<String>, Memory>
    requires { IsGraph graph.now }
{
    match kind {
        "graph" => Ok(Some(String::from_str(alloc, "yes")?)),
        "reached" => reached_in(alloc, graph, first, second, many),
        "circle" => circle_in(alloc, graph, first, many),
        "longest" => longest_in(alloc, graph, first, second, many),
        _ => Ok(None),
    }
}

/// What is said of what a row asks.
fn said(alloc: Global, kind: &str, asked: &str, many: bool) -> Result<Option<String>, Memory> {
    let mut parts = asked.split('|');
    let Some(graph) = graph_of(alloc, parts.next().unwrap_or(""))? else {
        return Ok(None);
    };
    let graph = graph.as_slice();
    if !is_graph(graph) {
        return Ok(Some(String::from_str(alloc, "no")?));
    }
    let first = parts.next().unwrap_or("");
    let second = parts.next().unwrap_or("");
    answer(alloc, kind, graph, first, second, many)
}

/// Whether a line holds, where it is a row.
fn holds(alloc: Global, line: &str) -> Result<Option<bool>, Memory> {
    let (asked, wanted) = line.split_once(" > ").unwrap_or((line, ""));
    let (word, rest) = asked.split_once(' ').unwrap_or((asked, ""));
    let (kind, rest) = match word {
        "" => return Ok(None),
        "many" => rest.split_once(' ').unwrap_or((rest, "")),
        _ => (word, rest),
    };
    match said(alloc, kind, rest, word == "many")? {
        Some(answer) => Ok(Some(answer.as_str() == wanted)),
        None => Ok(Some(false)),
    }
}

fn main(rt: HostRuntime) -> io::Result<()> {
    let alloc = rt.alloc();
    tell(rt, |line| holds(alloc, line).or(Err(AllocError)))
}
