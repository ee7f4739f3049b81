//! Graphs.

ghost use Rattle.std.specs.Prelude.{◌↔◌, ◌<◌, All, IsTrue};
ghost use Rattle.graph_walks.specs.Graphs as graphs;

/// Whether all of some vertices are below a number.
fn are_below(row: &[usize], count: usize) -> bool
    ensures { IsTrue result ↔ All (λ v. v < count) row.now }
{
    row.iter().all(|vertex| *vertex < count)
}

/// Whether each edge leads to a vertex.
pub fn is_graph(graph: &[Vec<usize>]) -> bool
    ensures { IsTrue result ↔ graphs.IsGraph graph.now }
{
    for row in graph {
        if !are_below(row, graph.len()) {
            return false;
        }
    }
    true
}
