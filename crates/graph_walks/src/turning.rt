//! Edges that are turned round.

ghost use Rattle.std.specs.Prelude.{◌≡◌, ◌<◌, ℕ, All, IfOk, OnOk, length};
ghost use Rattle.graph_walks.specs.Graphs.{IsGraph};
ghost use Rattle.graph_walks.specs.Turned.{IsAdded, IsEmpty, IsTurned, IsTurnedRow};

use no_memory::Memory;
use std::alloc::Global;

/// A graph without edges.
fn empty(alloc: Global, count: usize) -> Result<Vec<Vec<usize>>, Memory>
    ensures { IfOk result (λ graph. IsEmpty count graph.items) }
{
    let mut graph = Vec::with_capacity(alloc, count)?;
    for _row in 0..count {
        graph.push(Vec::new(alloc))?;
    }
    Ok(graph)
}

/// Adds an edge.
fn add(graph: &mut [Vec<usize>], from: usize, to: usize) -> Result<(), Memory>
    requires { from < length graph.old }
    ensures { OnOk result (IsAdded from to graph.old graph.new) }
{
    graph[from].push(to)?;
    Ok(())
}

/// Adds the edges of a vertex that lead to no stops, turned round.
fn turn(turned: &mut [Vec<usize>], from: usize, row: &[usize], stop: &[bool]) -> Result<(), Memory>
    requires turned { All (λ v. v < length turned.old) row.now }
    requires stop { All (λ v. v < length stop.now) row.now }
    ensures { OnOk result (IsTurnedRow stop.now from row.now turned.old turned.new) }
{
    for to in row {
        if !stop[*to] {
            add(turned, *to, from)?;
        }
    }
    Ok(())
}

/// A graph with its edges turned round that lead to no stops.
pub(crate) fn turned(
    alloc: Global,
    graph: &[Vec<usize>],
    stop: &[bool],
) -> Result<Vec<Vec<usize>>, Memory>
    requires graph { IsGraph graph.now }
    requires stop { length stop.now ≡ length graph.now }
    ensures { IfOk result (λ turned. IsTurned graph.now stop.now turned.items) }
{
    let mut turned = empty(alloc, graph.len())?;
    for from in 0..graph.len() {
        turn(&mut turned, from, &graph[from], stop)?;
    }
    Ok(turned)
}
