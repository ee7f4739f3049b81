//! Which vertices walks reach.

ghost use Rattle.std.specs.Prelude.{◌≡◌, IfOk, length};
ghost use Rattle.graph_walks.specs.Graphs.{IsGraph};
ghost use Rattle.graph_walks.specs.Reached.{AreReached};

use crate::levels::distances;
use no_memory::Memory;
use std::alloc::Global;

/// Marks each vertex that a walk from a start reaches which goes on from no stop. A start is reached, also where it is a stop.
pub fn reached(
    alloc: Global,
    graph: &[Vec<usize>],
    from: &[bool],
    stop: &[bool],
) -> Result<Vec<bool>, Memory>
    requires graph { IsGraph graph.now }
    requires from { length from.now ≡ length graph.now }
    requires stop { length stop.now ≡ length graph.now }
    ensures { IfOk result (λ marks. AreReached graph.now from.now stop.now marks.items) }
{
    let distances = distances(alloc, graph, from, stop)?;
    let mut marks = Vec::with_capacity(alloc, distances.len())?;
    for distance in &distances {
        marks.push(distance.is_some())?;
    }
    Ok(marks)
}
