//! The first circle without a stop.

ghost use Rattle.std.specs.Prelude.{◌≡◌, ◌↔◌, ◌<◌, ℕ, All, IfOk, IsTrue, MatchBool, length};
ghost use Rattle.graph_walks.specs.Circles.{HasCircle, IsCircleAnswer, IsShortestOf};
ghost use Rattle.graph_walks.specs.Graphs.{IsGraph};
ghost use Rattle.graph_walks.specs.Ways.{AreDistancesTo, IsFirstClosing, IsNearer, IsNearest, IsNearestFrom, LeadsInto};

use crate::components::{Mark, components_of};
use crate::levels::distances;
use crate::turning::turned;
use no_memory::Memory;
use std::alloc::Global;

/// A vertex that an edge leads to, and how far it is from there to where the circle began.
#[derive(Clone, Copy)]
struct Way {
    distance: usize,
    vertex: usize,
}

/// Whether a vertex with this mark is in a component.
fn is_in(mark: Mark, component: usize) -> bool
    ensures { IsTrue result ↔ (mark ≡ Mark.Done component) }
{
    match mark {
        Mark::Done(other) => other == component,
        Mark::Unseen | Mark::Held(_) => false,
    }
}

/// Whether some of the vertices is in a component, and no stop.
fn leads_into(row: &[usize], stop: &[bool], marks: &[Mark], component: usize) -> bool
    requires stop { All (λ v. v < length stop.now) row.now }
    requires marks { All (λ v. v < length marks.now) row.now }
    ensures { MatchBool result ((v : ℕ) × LeadsInto stop.now marks.now component row.now v)
        ((v : ℕ) → LeadsInto stop.now marks.now component row.now v → ⊥) }
{
    for vertex in row {
        if !stop[*vertex] && is_in(marks[*vertex], component) {
            return true;
        }
    }
    false
}

/// The least vertex with an edge within its component.
fn first_on_circle(graph: &[Vec<usize>], stop: &[bool], marks: &[Mark]) -> Option<usize>
    requires graph { IsGraph graph.now }
    requires stop { length stop.now ≡ length graph.now }
    requires marks { length marks.now ≡ length graph.now }
    ensures { IsFirstClosing graph.now stop.now marks.now result }
{
    for vertex in 0..graph.len() {
        if let Mark::Done(component) = marks[vertex] {
            if leads_into(&graph[vertex], stop, marks, component) {
                return Some(vertex);
            }
        }
    }
    None
}

/// How far it is from each vertex to this one, over edges to no stops.
fn distances_to(
    alloc: Global,
    graph: &[Vec<usize>],
    stop: &[bool],
    vertex: usize,
) -> Result<Vec<Option<usize>>, Memory>
    requires graph { IsGraph graph.now }
    requires stop { length stop.now ≡ length graph.now }
    requires vertex { vertex < length graph.now }
    ensures { IfOk result (λ distances. AreDistancesTo graph.now stop.now vertex distances.items) }
{
    let turned = turned(alloc, graph, stop)?;
    let mut from = vec![in alloc; false; graph.len()]?;
    from[vertex] = true;
    let nowhere = vec![in alloc; false; graph.len()]?;
    distances(alloc, &turned, &from, &nowhere)
}

/// The nearer of two ways, of equally near ones the first by its number.
fn nearer(held: Option<Way>, way: Way) -> Way
    ensures { IsNearer held way result }
{
    let Some(held) = held else {
        return way;
    };
    if held.distance < way.distance {
        return held;
    }
    if way.distance < held.distance || way.vertex < held.vertex {
        return way;
    }
    held
}

/// The nearest of some vertices, of those that are no stops.
fn nearest(row: &[usize], stop: &[bool], distances: &[Option<usize>]) -> Option<Way>
    requires stop { All (λ v. v < length stop.now) row.now }
    requires distances { All (λ v. v < length distances.now) row.now }
    ensures { IsNearest stop.now distances.now row.now result }
{
    let mut nearest = None;
    for vertex in row {
        if !stop[*vertex] {
            if let Some(distance) = distances[*vertex] {
                nearest = Some(nearer(
                    nearest,
                    Way {
                        distance,
                        vertex: *vertex,
                    },
                ));
            }
        }
    }
    nearest
}

/// The nearest of the vertices that edges lead to from this one.
fn nearest_from(
    graph: &[Vec<usize>],
    stop: &[bool],
    distances: &[Option<usize>],
    vertex: usize,
) -> Option<Way>
    requires graph { IsGraph graph.now }
    requires stop { length stop.now ≡ length graph.now }
    requires distances { length distances.now ≡ length graph.now }
    requires vertex { vertex < length graph.now }
    ensures { IsNearestFrom graph.now stop.now distances.now vertex result }
{
    nearest(&graph[vertex], stop, distances)
}

/// The first of the shortest circles through a vertex that has one: its vertices, the first one again at the end.
fn shortest(
    alloc: Global,
    graph: &[Vec<usize>],
    stop: &[bool],
    distances: &[Option<usize>],
    vertex: usize,
) -> Result<Vec<usize>, Memory>
    requires graph { IsGraph graph.now }
    requires stop { length stop.now ≡ length graph.now }
    requires distances { AreDistancesTo graph.now stop.now vertex distances.now }
    requires circle { HasCircle graph.now stop.now vertex }
    ensures { IfOk result (λ circle. IsShortestOf graph.now stop.now vertex circle.items) }
{
    let mut circle = Vec::new(alloc);
    circle.push(vertex)?;
    let Some(mut way) = nearest_from(graph, stop, distances, vertex) else {
        unreachable!()
    };
    while way.distance > 0 {
        circle.push(way.vertex)?;
        let Some(next) = nearest_from(graph, stop, distances, way.vertex) else {
            unreachable!()
        };
        way = next;
    }
    circle.push(way.vertex)?;
    Ok(circle)
}

/// The shortest circle without a stop through the least vertex that has one, of equally short ones the first by the numbers: its
/// vertices, the first one again at the end. None where no circle is without a stop.
pub fn circle(
    alloc: Global,
    graph: &[Vec<usize>],
    stop: &[bool],
) -> Result<Option<Vec<usize>>, Memory>
    requires graph { IsGraph graph.now }
    requires stop { length stop.now ≡ length graph.now }
    ensures { IfOk result (IsCircleAnswer graph.now stop.now) }
{
    let marks = components_of(alloc, graph, stop)?.marks;
    let Some(vertex) = first_on_circle(graph, stop, &marks) else {
        return Ok(None);
    };
    let distances = distances_to(alloc, graph, stop, vertex)?;
    let circle = shortest(alloc, graph, stop, &distances, vertex)?;
    Ok(Some(circle))
}
