//! What is answered.

ghost use Rattle.graph_walks.specs.Graphs.{IsGraph};

use crate::graphs::{costs_of, marks_of};
use graph_walks::{circle, longest, reached};
use no_memory::Memory;
use std::alloc::Global;

/// The vertices that are marked.
fn marked(alloc: Global, marks: &[bool]) -> Result<Vec<usize>, Memory> {
    let mut vertices = Vec::new(alloc);
    for (vertex, is_marked) in marks.iter().enumerate() {
        if *is_marked {
            vertices.push(vertex)?;
        }
    }
    Ok(vertices)
}

/// Vertices as an answer, or how many they are.
fn told(alloc: Global, vertices: &[usize], many: bool) -> Result<Option<String>, Memory> {
    if many {
        return Ok(Some(format!(in alloc; "{}", vertices.len())?));
    }
    Ok(Some(format!(in alloc; "{:?}", vertices)?))
}

/// Which vertices are reached.
pub fn reached_in(
    alloc: Global,
    graph: &[Vec<usize>],
    from: &str,
    stop: &str,
    many: bool,
) -> Result<Option<String>, Memory>
    requires { IsGraph graph.now }
{
    let Some(from) = marks_of(alloc, from, graph.len())? else {
        return Ok(None);
    };
    let Some(stop) = marks_of(alloc, stop, graph.len())? else {
        return Ok(None);
    };
    let marks = reached(alloc, graph, &from, &stop)?;
    let vertices = marked(alloc, &marks)?;
    told(alloc, &vertices, many)
}

/// The first circle without a stop.
pub fn circle_in(
    alloc: Global,
    graph: &[Vec<usize>],
    stop: &str,
    many: bool,
) -> Result<Option<String>, Memory>
    requires { IsGraph graph.now }
{
    let Some(stop) = marks_of(alloc, stop, graph.len())? else {
        return Ok(None);
    };
    match circle(alloc, graph, &stop)? {
        Some(vertices) => told(alloc, &vertices, many),
        None => Ok(Some(String::from_str(alloc, "none")?)),
    }
}

/// What the dearest legs cost.
pub fn longest_in(
    alloc: Global,
    graph: &[Vec<usize>],
    stop: &str,
    costs: &str,
    many: bool,
) -> Result<Option<String>, Memory>
    requires { IsGraph graph.now }
{
    let Some(stop) = marks_of(alloc, stop, graph.len())? else {
        return Ok(None);
    };
    let Some(costs) = costs_of(alloc, costs, graph.len())? else {
        return Ok(None);
    };
    let stop = stop.as_slice();
    let None = circle(alloc, graph, stop)? else {
        return Ok(Some(String::from_str(alloc, "circle")?));
    };
    let longest = longest(alloc, graph, &costs, stop)?;
    if many {
        let first = longest.first().copied().unwrap_or(None);
        return Ok(Some(format!(in alloc; "{first:?}")?));
    }
    Ok(Some(format!(in alloc; "{:?}", longest.as_slice())?))
}
