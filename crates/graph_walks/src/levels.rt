//! Distances, level by level.

ghost use Rattle.std.specs.Prelude.{◌≡◌, ℕ, ◌+◌, ◌<◌, ◌≤◌, [], All, Contains, IfOk, OnOk, length};
ghost use Rattle.graph_walks.specs.Graphs.{GoesOn, IsGraph, IsMarked};
ghost use Rattle.graph_walks.specs.Levels.{IsFirstLevel, IsLedFrom, IsSpread};
ghost use Rattle.graph_walks.specs.Reached.{AreDistances};

use no_memory::Memory;
use std::alloc::Global;
use std::mem;

/// The distances that are known, and the vertices that got theirs last.
#[derive(Drop)]
struct Level {
    distances: Vec<Option<usize>>,
    front: Vec<usize>,
}

impl Level {
    /// Gives a vertex this distance where it has none, and adds it to the front then.
    fn lead_to(&mut self, vertex: usize, distance: usize) -> Result<(), Memory>
        requires { vertex < length self.old.distances.items }
        ensures { OnOk result (IsSpread (λ v. v ≡ vertex) distance self.old self.new) }
    {
        if self.distances[vertex].is_none() {
            self.distances[vertex] = Some(distance);
            self.front.push(vertex)?;
        }
        Ok(())
    }

    /// The starts, at distance 0.
    fn of_starts(alloc: Global, from: &[bool]) -> Result<Level, Memory>
        ensures { IfOk result (IsFirstLevel from.now) }
    {
        let mut level = Level {
            distances: vec![in alloc; None; from.len()]?,
            front: Vec::new(alloc),
        };
        for (vertex, is_start) in from.iter().enumerate() {
            if *is_start {
                level.lead_to(vertex, 0)?;
            }
        }
        Ok(level)
    }

    /// Leads to each of some vertices.
    fn lead_along(&mut self, row: &[usize], distance: usize) -> Result<(), Memory>
        requires { All (λ v. v < length self.old.distances.items) row.now }
        ensures { OnOk result (IsSpread (Contains row.now) distance self.old self.new) }
    {
        for vertex in row {
            self.lead_to(*vertex, distance)?;
        }
        Ok(())
    }

    /// Leads along the edges from a front.
    fn go_on(
        &mut self,
        graph: &[Vec<usize>],
        stop: &[bool],
        front: &[usize],
        distance: usize,
    ) -> Result<(), Memory>
        requires graph { IsGraph graph.now }
        requires stop { length stop.now ≡ length graph.now }
        requires sized { length self.old.distances.items ≡ length graph.now }
        requires front { All (λ v. v < length graph.now) front.now }
        ensures { OnOk result (IsSpread (IsLedFrom graph.now stop.now front.now) distance self.old self.new) }
    {
        for vertex in front {
            if !stop[*vertex] {
                self.lead_along(&graph[*vertex], distance)?;
            }
        }
        Ok(())
    }
}

/// How many edges the shortest walk from a start to each vertex has that goes on from no stop.
pub(crate) fn distances(
    alloc: Global,
    graph: &[Vec<usize>],
    from: &[bool],
    stop: &[bool],
) -> Result<Vec<Option<usize>>, Memory>
    requires graph { IsGraph graph.now }
    requires from { length from.now ≡ length graph.now }
    requires stop { length stop.now ≡ length graph.now }
    ensures { IfOk result (λ distances. AreDistances graph.now from.now stop.now distances.items) }
{
    let mut level = Level::of_starts(alloc, from)?;
    let mut distance = 0;
    while !level.front.is_empty() {
        let front = mem::replace(&mut level.front, Vec::new(alloc));
        distance += 1;
        level.go_on(graph, stop, &front, distance)?;
    }
    Ok(level.distances)
}
