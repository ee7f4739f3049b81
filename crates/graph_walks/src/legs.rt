//! What the dearest leg from each vertex costs.

ghost use Rattle.std.specs.Prelude.{◌≡◌, ℕ, ◌+◌, ◌^◌, ◌<◌, All, IfOk, IfSome, length, option_map};
ghost use Rattle.graph_walks.specs.Circles.{HasNoCircle};
ghost use Rattle.graph_walks.specs.Graphs.{IsGraph};
ghost use Rattle.graph_walks.specs.Greatest as greatest;
ghost use Rattle.graph_walks.specs.Greatest.{IsGreatest};
ghost use Rattle.graph_walks.specs.Legs.{AreLongest};

use crate::components::components_of;
use no_memory::Memory;
use std::alloc::Global;

/// The greater of two costs, where there is one.
fn greater(a: Option<u128>, b: Option<u128>) -> Option<u128>
    ensures { result ≡ greatest.greater a b }
{
    match (a, b) {
        (Some(a), Some(b)) => Some(a.max(b)),
        (Some(a), None) => Some(a),
        (None, b) => b,
    }
}

/// What the dearest leg costs behind an edge to a vertex.
fn left_behind(vertex: usize, stop: &[bool], longest: &[Option<u128>]) -> Option<u128>
    requires stop { vertex < length stop.now }
    requires longest { vertex < length longest.now }
    ensures { result ≡ greatest.left_behind stop.now longest.now vertex }
{
    if stop[vertex] {
        Some(0)
    } else {
        longest[vertex]
    }
}

/// The greatest that is left behind the edges to some vertices.
fn greatest_behind(row: &[usize], stop: &[bool], longest: &[Option<u128>]) -> Option<u128>
    requires stop { All (λ v. v < length stop.now) row.now }
    requires longest { All (λ v. v < length longest.now) row.now }
    ensures { IsGreatest (greatest.left_behind stop.now longest.now) row.now result }
{
    let mut most = None;
    for vertex in row {
        most = greater(most, left_behind(*vertex, stop, longest));
    }
    most
}

/// What a vertex costs, and what is left behind it.
fn with_cost(cost: u64, behind: Option<u128>) -> Option<u128>
    requires { IfSome behind (λ b. cost + b < 2 ^ 128) }
    ensures { result ≡ option_map (λ b. cost + b) behind }
{
    behind.map(|behind| u128::from(cost) + behind)
}

/// What the dearest leg from each vertex costs, or none where no leg begins. A leg goes along edges up to the first stop, and
/// costs what the vertices cost that it goes on from. A circle without a stop may not be there ([`circle`](crate::circle)).
pub fn longest(
    alloc: Global,
    graph: &[Vec<usize>],
    cost: &[u64],
    stop: &[bool],
) -> Result<Vec<Option<u128>>, Memory>
    requires graph { IsGraph graph.now }
    requires cost { length cost.now ≡ length graph.now }
    requires stop { length stop.now ≡ length graph.now }
    requires no_circle { HasNoCircle graph.now stop.now }
    ensures { IfOk result (λ longest. AreLongest graph.now cost.now stop.now longest.items) }
{
    let order = components_of(alloc, graph, stop)?.order;
    let mut longest = vec![in alloc; None; graph.len()]?;
    for vertex in &order {
        let behind = greatest_behind(&graph[*vertex], stop, &longest);
        longest[*vertex] = with_cost(cost[*vertex], behind);
    }
    Ok(longest)
}
