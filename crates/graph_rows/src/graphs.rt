//! Graphs and lists as rows write them.

ghost use Rattle.std.specs.Prelude.{◌≡◌, ◌<◌, IfOk, IfSome, length};

use no_memory::Memory;
use std::alloc::Global;

/// The edges of a vertex in a graph of this name.
fn row_of(alloc: Global, name: &str, vertex: usize, count: usize) -> Result<Vec<usize>, Memory>
    requires { vertex < count }
{
    let next = vertex + 1;
    let (from, to) = match name {
        "dense" => (next, count),
        "whole" => (0, count),
        "ring" if next == count => (0, 1),
        "chain" | "ring" => (next, count.min(next.saturating_add(1))),
        _ => (0, 0),
    };
    let mut row = Vec::new(alloc);
    for vertex in from..to {
        row.push(vertex)?;
    }
    Ok(row)
}

/// The graph of a name.
fn named(alloc: Global, name: &str, count: usize) -> Result<Vec<Vec<usize>>, Memory> {
    let mut graph = Vec::new(alloc);
    for vertex in 0..count {
        graph.push(row_of(alloc, name, vertex, count)?)?;
    }
    Ok(graph)
}

/// Adds the edge of a word, and says whether it is one from a vertex.
fn add_edge(graph: &mut [Vec<usize>], word: &str) -> Result<bool, Memory> {
    let Some((from, to)) = word.split_once('-') else {
        return Ok(false);
    };
    let (Ok(from), Ok(to)) = (from.parse::<usize>(), to.parse::<usize>()) else {
        return Ok(false);
    };
    if from >= graph.len() {
        return Ok(false);
    }
    graph[from].push(to)?;
    Ok(true)
}

/// The graph of a text, if it is one.
pub fn graph_of(alloc: Global, text: &str) -> Result<Option<Vec<Vec<usize>>>, Memory> {
    let mut words = text.split_ascii_whitespace();
    let first = words.next().unwrap_or("");
    if let "chain" | "ring" | "dense" | "whole" = first {
        let Ok(count) = words.next().unwrap_or("").parse::<usize>() else {
            return Ok(None);
        };
        return Ok(Some(named(alloc, first, count)?));
    }
    let Ok(count) = first.parse::<usize>() else {
        return Ok(None);
    };
    let mut graph = named(alloc, "", count)?;
    for word in words {
        if !add_edge(&mut graph, word)? {
            return Ok(None);
        }
    }
    Ok(Some(graph))
}

/// Marks for so many vertices, where the vertices of a text are some of them.
pub fn marks_of(alloc: Global, text: &str, count: usize) -> Result<Option<Vec<bool>>, Memory>
    ensures { IfOk result (λ marks. IfSome marks (λ m. length m.items ≡ count)) }
{
    let mut marks = vec![in alloc; false; count]?;
    for word in text.split_ascii_whitespace() {
        let Ok(vertex) = word.parse::<usize>() else {
            return Ok(None);
        };
        if vertex >= marks.len() {
            return Ok(None);
        }
        marks[vertex] = true;
    }
    Ok(Some(marks))
}

/// The costs of so many vertices, where a text has so many or one.
pub fn costs_of(alloc: Global, text: &str, count: usize) -> Result<Option<Vec<u64>>, Memory>
    ensures { IfOk result (λ costs. IfSome costs (λ c. length c.items ≡ count)) }
{
    if let Ok(cost) = text.trim().parse::<u64>() {
        return Ok(Some(vec![in alloc; cost; count]?));
    }
    let mut costs = Vec::new(alloc);
    for word in text.split_ascii_whitespace() {
        let Ok(cost) = word.parse::<u64>() else {
            return Ok(None);
        };
        costs.push(cost)?;
    }
    if costs.len() == count {
        Ok(Some(costs))
    } else {
        Ok(None)
    }
}
